// The states of a segment, and the earliest of two.
#![tactic(auto, unfolding(xliff::specs::State::state_of, xliff::specs::State::state_letter, xliff::specs::State::earliest, xliff::specs::Join::join_states))]

ghost use Rattle.std.specs.Prelude.{◌≡◌};
ghost use Rattle.xliff.specs.State.{state_letter, state_of, earliest};
ghost use Rattle.xliff.specs.Join.{join_states};
ghost use Rattle.joined_part.specs.States.{state};

#[derive(Clone, Copy, PartialEq, Eq)]
pub enum State {
    Initial,
    Translated,
    Reviewed,
    Final,
}

// A checked table has no other letter than I, T, R, F.
impl From<u8> for State {
    ghost from_gives = { λ letter s. state s ≡ state_of letter };

    fn from(letter: u8) -> State {
        match letter {
            b'I' => State::Initial,
            b'T' => State::Translated,
            b'R' => State::Reviewed,
            _ => State::Final,
        }
    }
}

impl From<State> for u8 {
    ghost from_gives = { λ s letter. letter ≡ state_letter (state s) };

    fn from(s: State) -> u8 {
        match s {
            State::Initial => b'I',
            State::Translated => b'T',
            State::Reviewed => b'R',
            State::Final => b'F',
        }
    }
}

// The sixteen pairs. They stay written as cases, and not as `min`: order 3 of document 02 wants them so, to lay beside
// the state list of document 000.
fn earliest_of(s: State, t: State) -> State
    ensures { state result ≡ earliest (state s) (state t) }
{
    match (s, t) {
        (State::Initial, State::Initial) => State::Initial,
        (State::Initial, State::Translated) => State::Initial,
        (State::Initial, State::Reviewed) => State::Initial,
        (State::Initial, State::Final) => State::Initial,
        (State::Translated, State::Initial) => State::Initial,
        (State::Translated, State::Translated) => State::Translated,
        (State::Translated, State::Reviewed) => State::Translated,
        (State::Translated, State::Final) => State::Translated,
        (State::Reviewed, State::Initial) => State::Initial,
        (State::Reviewed, State::Translated) => State::Translated,
        (State::Reviewed, State::Reviewed) => State::Reviewed,
        (State::Reviewed, State::Final) => State::Reviewed,
        (State::Final, State::Initial) => State::Initial,
        (State::Final, State::Translated) => State::Translated,
        (State::Final, State::Reviewed) => State::Reviewed,
        (State::Final, State::Final) => State::Final,
    }
}

// The letter of the earliest of two states, by their letters.
pub fn join_states(s: u8, t: u8) -> u8
    ensures { result ≡ join_states s t }
{
    u8::from(earliest_of(State::from(s), State::from(t)))
}
