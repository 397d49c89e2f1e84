// The published rule of moves on a grid, over places, and the distance that it shortens.
#![tactic(auto)]

ghost use Rattle.std.specs.Prelude.{◌≡◌};
ghost use Rattle.mesh.specs.Grid.{on_grid, distance_of};
ghost use Rattle.mesh.specs.Rule.{profile_of, step_of, signs_of, settled_by, arrived_by, offers, is_static, is_chosen, keeps, Addressable, leads, ruled};
ghost use Rattle.mesh.specs.Mesh.{is_code};

use network::{Kind, Lead, Place};

// Which of the rule's moves a board has (document 02, order 2), in the words of source 003, section VII.
#[derive(Clone, Copy)]
pub enum Profile {
    // all
    Full,
    // none of the dynamic hops
    Adapt,
    // one hop at most, and in A no change at the destination
    Oblivious,
}

// What a code names.
#[derive(Clone, Copy)]
pub enum Step {
    Enter,
    Right,
    Left,
    Up,
    Down,
    Change,
    Deliver,
}

// The signs of the two differences, from here (x, y) to the destination (z, w).
#[derive(Clone, Copy)]
pub struct Signs {
    // z > x
    pub right: bool,
    // z < x
    pub left: bool,
    // w > y
    pub up: bool,
    // w < y
    pub down: bool,
}

// Is there such a node on a grid of that width and height?
pub fn on_grid(width: usize, height: usize, node: u8) -> bool
    ensures { result ≡ on_grid width height node }
{
    usize::from(node % 16) < width && usize::from(node / 16) < height
}

#[tactic(auto, unfolding(crate::specs::Grid::distance_of))]
pub fn distance(a: u8, b: u8) -> u32
    ensures { result ≡ distance_of a b }
{
    u32::from((a % 16).abs_diff(b % 16)) + u32::from((a / 16).abs_diff(b / 16))
}

// The highest code.
pub const LAST_CODE: u32 = 7;

// Is there such a code?
pub fn is_code(code: u32) -> bool
    ensures { result ≡ is_code code }
{
    (1..=LAST_CODE).contains(&code)
}

// The profile of a number; those above 2 are on no good board. No `TryFrom`, since `net_of` answers for any number, and no `From`: `profile_of_determined` is of this.
#[tactic(auto, unfolding(crate::specs::Rule::profile_of))]
pub fn profile_of(number: usize) -> Profile
    ensures { result ≡ profile_of number }
{
    match number {
        0 => Profile::Full,
        1 => Profile::Adapt,
        _ => Profile::Oblivious,
    }
}

// A code is a number until here, as it is proposed: `is_code` and `unknown_never` speak of each. A `TryFrom`'s error would say no more than None.
#[tactic(auto, unfolding(crate::specs::Rule::step_of))]
fn step_of(code: u32) -> Option<Step>
    ensures { result ≡ step_of code }
{
    match code {
        1 => Some(Step::Enter),
        2 => Some(Step::Right),
        3 => Some(Step::Left),
        4 => Some(Step::Up),
        5 => Some(Step::Down),
        6 => Some(Step::Change),
        7 => Some(Step::Deliver),
        _ => None,
    }
}

#[tactic(auto, using(crate::proofs::Offers::signs_are))]
fn signs_of(here: u8, destination: u8) -> Signs
    ensures { result ≡ signs_of here destination }
{
    let (x, y) = (here % 16, here / 16);
    let (z, w) = (destination % 16, destination / 16);
    Signs {
        right: x < z,
        left: z < x,
        up: y < w,
        down: w < y,
    }
}

// Neither coordinate of the destination is greater: what every packet in B keeps.
pub fn settled(here: u8, destination: u8) -> bool
    ensures { result ≡ settled_by (signs_of here destination) }
{
    let s = signs_of(here, destination);
    !s.right && !s.up
}

// Here is the destination.
fn arrived(s: Signs) -> bool
    ensures { result ≡ arrived_by s }
{
    !s.right && !s.left && !s.up && !s.down
}

// Document 01's third column. Left and Down in A are the dynamic hops. Step, signs and kind side by side, as `offers`, `is_chosen` and `keeps` have them.
fn offered(step: Step, s: Signs, kind: Kind) -> bool
    ensures { result ≡ offers step s kind }
{
    match (step, kind) {
        (Step::Enter, Kind::Waiting) => true,
        (Step::Right, Kind::A) => s.right,
        (Step::Left, Kind::A) => s.left && s.up,
        (Step::Left, Kind::B) => s.left,
        (Step::Up, Kind::A) => s.up,
        (Step::Down, Kind::A) => s.down && s.right,
        (Step::Down, Kind::B) => s.down,
        (Step::Change, Kind::A) => !s.right && !s.up,
        (Step::Deliver, Kind::A | Kind::B) => arrived(s),
        _ => false,
    }
}

// Not a dynamic hop.
fn is_static(step: Step, kind: Kind) -> bool
    ensures { result ≡ is_static step kind }
{
    !matches!((step, kind), (Step::Left | Step::Down, Kind::A))
}

// The one of several static moves: in A Right before Up, in B Left before Down, at the destination delivery before the change.
fn is_chosen(step: Step, s: Signs, kind: Kind) -> bool
    ensures { result ≡ is_chosen step s kind }
{
    match (step, kind) {
        (Step::Up, Kind::A) => !s.right,
        (Step::Down, Kind::B) => !s.left,
        (Step::Change, Kind::A) => !arrived(s),
        _ => true,
    }
}

// What a profile keeps of the rule.
fn kept(profile: Profile, step: Step, s: Signs, kind: Kind) -> bool
    ensures { result ≡ keeps profile step s kind }
{
    match profile {
        Profile::Full => true,
        Profile::Adapt => is_static(step, kind),
        Profile::Oblivious => is_static(step, kind) && is_chosen(step, s, kind),
    }
}

// Document 01's second column. An offered hop goes toward the destination, so the address has room for it.
fn lead(step: Step, node: u8, s: Signs) -> Lead
    requires { Addressable step node }
    ensures { result ≡ leads step node s }
{
    match step {
        Step::Enter => Lead::Turn(if s.right || s.up { Kind::A } else { Kind::B }),
        Step::Right => Lead::Hop(node + 1),
        Step::Left => Lead::Hop(node - 1),
        Step::Up => Lead::Hop(node + 16),
        Step::Down => Lead::Hop(node - 16),
        Step::Change => Lead::Turn(Kind::B),
        Step::Deliver => Lead::Out,
    }
}

// The rule of moves: where a code leads a packet from its place, for its destination, on a board of that profile. Any code is answered.
#[tactic(auto, unfolding(crate::specs::Rule::ruled))]
pub fn rule(profile: Profile, here: Place, destination: u8, code: u32) -> Lead
    ensures { result ≡ ruled profile here destination code }
{
    let s = signs_of(here.node, destination);
    match step_of(code) {
        Some(step) if kept(profile, step, s, here.kind) && offered(step, s, here.kind) => {
            lead(step, here.node, s)
        }
        _ => Lead::NotOffered,
    }
}
