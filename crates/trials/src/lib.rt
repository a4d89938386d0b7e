// Trial routines (02 l): the lists of up to five calls with which the mechanics try a frame's head 0, each at its place. None is stored. How
// many of them go on behind each call is counted, and that says which call a place leads to. The code needs no frame.
#![tactic(auto)]

ghost use Rattle.std.specs.Prelude.{◌≡◌, ◌<◌, ◌≤◌, length, get_or, option_map, [], Some};
ghost use Rattle.trials.specs.Calls.{calls};
ghost use Rattle.trials.specs.Routines.{routine_at};
ghost use Rattle.trials.specs.Counting.{empty, after, routines_from, step_among};
ghost use Rattle.trials.specs.Order.{InOrder, OnTrialFrame};

use arrayvec::ArrayVec;

// ArrayVec wants a default, which means nothing here.
#[derive(Clone, Copy, Default)]
pub enum TrialCall {
    #[default]
    Load,
    Mark,
    Back,
    Drop,
    Rest,
}

const CALLS: [TrialCall; 5] = [
    TrialCall::Load,
    TrialCall::Mark,
    TrialCall::Back,
    TrialCall::Drop,
    TrialCall::Rest,
];

// Shorter routines come first.
const LENGTHS: [usize; 6] = [0, 1, 2, 3, 4, 5];

// What a refusal of these calls goes by: whether head 0 has a filter, and how many marks stand. No list of five calls comes to a fifth mark;
// that `after` refuses one lets state and head agree on longer lists too.
#[derive(Clone, Copy)]
struct State {
    loaded: bool,
    marks: usize,
}

const EMPTY: State = State {
    loaded: false,
    marks: 0,
};

// What a step down to a routine finds: its next call, the state behind it, and the place among the lists that go on from there.
#[derive(Drop)]
struct Step {
    call: TrialCall,
    next: State,
    place: usize,
}

// None where the call is refused. A mark is never of an empty head, so that a head which goes back to one is loaded.
fn after(state: State, call: TrialCall) -> Option<State>
    ensures { result ≡ after state call }
{
    let State { loaded, marks } = state;
    match call {
        TrialCall::Load => Some(State {
            loaded: true,
            marks,
        }),
        TrialCall::Mark if loaded && marks < 4 => Some(State {
            loaded: true,
            marks: marks + 1,
        }),
        TrialCall::Back if 0 < marks => Some(State {
            loaded: true,
            marks: 1,
        }),
        TrialCall::Drop if 0 < marks => Some(State { loaded, marks: 0 }),
        TrialCall::Rest if loaded => Some(state),
        _ => None,
    }
}

// How many lists of n calls are accepted from a state on: none behind a refused call.
fn count(state: Option<State>, n: usize) -> usize
    requires { n ≤ 5 }
    ensures { result ≡ length (routines_from state n) }
{
    let Some(state) = state else {
        return 0;
    };
    if n == 0 {
        return 1;
    }
    let mut total = 0;
    for call in CALLS {
        total += count(after(state, call), n - 1);
    }
    total
}

// The step that a place takes where `left` calls follow it. Where a call has lists behind it, it is not refused, so `next` is a state.
#[tactic(auto, using(crate::proofs::Choices::step_none))]
fn next_step(state: State, left: usize, mut place: usize) -> Option<Step>
    requires { left ≤ 4 }
    ensures { result ≡ step_among state left calls place }
{
    for call in CALLS {
        let next = after(state, call);
        let many = count(next, left);
        if place < many {
            return Some(Step {
                call,
                next: next?,
                place,
            });
        }
        place -= many;
    }
    None
}

// The list of n calls at a place, counted among those of n calls alone. The place is below their number, so there is a step each time.
#[tactic(auto, using(crate::proofs::Choices::walked_none, crate::proofs::Choices::walked_all, crate::proofs::Choices::walked_not_none))]
fn list_at(n: usize, mut place: usize) -> ArrayVec<TrialCall, 5>
    requires few { n ≤ 5 }
    requires there { place < length (routines_from (Some empty) n) }
    ensures { result.items ≡ get_or (routines_from (Some empty) n) place [] }
{
    let mut list = ArrayVec::new();
    let mut state = EMPTY;
    for left in (0..n).rev() {
        let Some(step) = next_step(state, left, place) else {
            return list;
        };
        list.push(step.call);
        state = step.next;
        place = step.place;
    }
    list
}

// The routine at a place, from 0; None past the end.
#[tactic(auto, using(crate::proofs::Places::few_calls, crate::proofs::Places::among_all, crate::proofs::Places::among_here, crate::proofs::Places::among_later, crate::proofs::Places::among_none))]
pub fn routine_at(mut place: usize) -> Option<ArrayVec<TrialCall, 5>>
    ensures { option_map (λ list. list.items) result ≡ routine_at place }
{
    for n in LENGTHS {
        let many = count(Some(EMPTY), n);
        if place < many {
            return Some(list_at(n, place));
        }
        place -= many;
    }
    None
}

// ---- the theorems

// A routine is at each place below their number and at no other, the smaller one at the smaller place, and every routine is at one.
#[tactic(auto, using(crate::proofs::Order::in_order))]
pub fn in_order()
    ensures { InOrder }
{}

// They are the lists that a frame takes which has opened one entry, whichever it is.
#[tactic(auto, using(crate::proofs::OnFrame::on_trial_frame))]
pub fn on_trial_frame()
    ensures { OnTrialFrame }
{}
