// The law of sense.
ghost use Rattle.sense.specs.Law.{SenseHolds};

// A draft has the first of all faults of a text; where there is none, the text keeps the limits, and the draft holds its meaning.
#[tactic(auto, using(crate::proofs::Whole::sense_law))]
pub fn sense_holds()
    ensures { SenseHolds }
{}
