ghost use Rattle.std.specs.Prelude.{◌≡◌, ◌<◌, ◌≤◌, ℕ, true, false, length};
ghost use Rattle.restraint_search.specs.Trials.{SomeViolated, NoneViolated};
ghost use Rattle.restraint_search.specs.Turns.{Follows};

/// Whether a state is violated.
pub fn some_violated(violated: &[bool]) -> bool
    ensures some { result ≡ true → SomeViolated violated.now }
    ensures none { result ≡ false → NoneViolated violated.now }
{
    violated.contains(&true)
}

/// Flips the states that flip in a turn.
pub fn flip(closed: &mut [bool], violated: &[bool], turn: u32)
    requires { length violated.now ≡ length closed.old }
    ensures { Follows turn violated.now closed.old closed.new }
{
    if turn <= 8 {
        flip_all(closed, violated)
    } else {
        flip_least(closed, violated)
    }
}

/// Flips all states that are violated.
fn flip_all(closed: &mut [bool], violated: &[bool])
    requires { length violated.now ≡ length closed.old }
    ensures { (turn : ℕ) → turn ≤ 8 → Follows turn violated.now closed.old closed.new }
{
    for k in 0..closed.len() {
        closed[k] = closed[k] != violated[k];
    }
}

/// Flips the violated state of least number.
fn flip_least(closed: &mut [bool], violated: &[bool])
    requires { length violated.now ≡ length closed.old }
    ensures { (turn : ℕ) → 8 < turn → Follows turn violated.now closed.old closed.new }
{
    for k in 0..closed.len() {
        if violated[k] {
            closed[k] = !closed[k];
            return;
        }
    }
}
