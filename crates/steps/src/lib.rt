// What a call does to a record that is one: the statement of it, and how many nodes the cube of a record has.
#![tactic(auto)]

ghost use Rattle.std.specs.Prelude.{◌≡◌, true, ◌^◌, ◌≤◌};
ghost use Rattle.record.specs.Layout.{valid_record, decode};

// How many nodes the cube has.
pub fn nodes_of(rec: &[u8]) -> usize
    requires { valid_record rec.now ≡ true }
    ensures { (result ≡ 2 ^ (decode rec.now).n) × (result ≤ 1024) }
{
    let n = record::dimension(rec);
    state::node_count(n)
}
