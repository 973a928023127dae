// The sequencer, and what it may change, with a part another.
#![tactic(auto, unfolding(rules::specs::Sequencer::waited, rules::specs::Sequencer::entered))]

ghost use Rattle.std.specs.Prelude.{◌≡◌};
ghost use Rattle.rules.specs.Sequencer.{in_phase, waited, entered};

use rules::chip::{Phase, Sequenced, Sequencer};

// "Every change of phase starts at 0 ticks."
pub fn in_phase(p: Phase, q: Sequencer) -> Sequencer
    ensures { result ≡ in_phase p q }
{
    Sequencer {
        phase: p,
        ticks: 0,
        ..q
    }
}

pub fn waited(n: u32, x: Sequenced) -> Sequenced
    ensures { result ≡ waited n x }
{
    Sequenced {
        sequencer: Sequencer {
            ticks: n,
            ..x.sequencer
        },
        ..x
    }
}

pub fn entered(p: Phase, x: Sequenced) -> Sequenced
    ensures { result ≡ entered p x }
{
    Sequenced {
        sequencer: in_phase(p, x.sequencer),
        ..x
    }
}
