// The C library: set-up, the loading call and the frame call of the crate cube, each under its own clauses. include/cube.h declares them; a slice is a
// pointer and then its length.
#![tactic(auto)]

ghost use Rattle.cube.specs.Called.{delivered, SetUp, Loaded, Called};

#[unsafe(no_mangle)]
pub extern "C" fn cube_setup(rec: &mut [u8], n: u32) -> u32
    ensures { SetUp delivered rec.old n result rec.new }
{
    cube::cube_setup(rec, n)
}

#[unsafe(no_mangle)]
pub extern "C" fn cube_load(rec: &[u8]) -> u32
    ensures { Loaded delivered rec.now result }
{
    cube::cube_load(rec)
}

#[unsafe(no_mangle)]
pub extern "C" fn cube_call(rec: &mut [u8], frame: &[u8], reply: &mut [u8]) -> u32
    ensures { Called delivered rec.old frame.now reply.old result rec.new reply.new }
{
    cube::cube_call(rec, frame, reply)
}
