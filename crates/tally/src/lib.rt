// The counts of a log. Document 01, "Log program": "The counts always follow, of lines and of each outcome".
#![tactic(auto)]

ghost use Rattle.std.specs.Prelude.{◌≡◌};
ghost use Rattle.tally.specs.Counts.{more, none, counted};

// A refusal's number stays a number: it is what a reply's bytes say, and `told` (frame_log/specs/Frames.antt) is over every one.
// What a line says: 'setup' has n, 'done' a value, 'granted' job, lowest node, star bits and tried, 'refused' number and tried.
#[derive(Clone, Copy)]
pub enum Outcome {
    Setup(u16),
    Done(u16),
    Granted {
        job: u16,
        low: u16,
        stars: u16,
        tried: u16,
    },
    Refused {
        number: u32,
        tried: u16,
    },
}

#[derive(Clone, Copy, Default)]
pub struct Tally {
    pub total: u32,
    pub setup: u32,
    pub done: u32,
    pub granted: u32,
    pub refused: u32,
}

// "a count that has reached 4294967295 stays there"
fn one_more(count: u32) -> u32
    ensures { result ≡ more count }
{
    count.saturating_add(1)
}

impl Tally {
    pub fn none() -> Tally
        ensures { result ≡ none }
    {
        Tally::default()
    }

    // The counts with one line more.
    pub fn with(self, o: Outcome) -> Tally
        ensures { result ≡ counted self o }
    {
        let t = Tally {
            total: one_more(self.total),
            ..self
        };
        match o {
            Outcome::Setup(_) => Tally {
                setup: one_more(t.setup),
                ..t
            },
            Outcome::Done(_) => Tally {
                done: one_more(t.done),
                ..t
            },
            Outcome::Granted { .. } => Tally {
                granted: one_more(t.granted),
                ..t
            },
            Outcome::Refused { .. } => Tally {
                refused: one_more(t.refused),
                ..t
            },
        }
    }
}
