// Draws by a linear congruence.
ghost use Rattle.std.specs.Prelude.{◌≡◌, ◌<◌, ◌≤◌, ◌+◌, ◌%◌, ℕ, slice_index};
ghost use Rattle.etp_gen.specs.Draws.{draw, next_draw};

/// The draw from a state, which is the state after it.
pub(crate) fn draw_from(state: u32) -> u32
    requires { state < 65537 }
    ensures value { result ≡ next_draw state }
    ensures below { result < 65537 }
{
    (75 * state + 74) % 65537
}

/// The values that are drawn for a law's variables, and the state after these draws.
#[derive(Clone, Copy)]
pub(crate) struct Values {
    pub(crate) values: [u8; 8],
    pub(crate) after: u32,
}

/// One draw for each variable, modulo their number. Places past the variables are 0.
pub(crate) fn draw_values(state: u32, variables: u8) -> Values
    requires some { 0 < variables }
    requires few { variables ≤ 8 }
    requires state { state < 65537 }
    ensures values { (i : ℕ) → i < variables
        → slice_index result.values i ≡ draw state (1 + i) % variables }
    ensures after { result.after ≡ draw state variables }
    ensures below { result.after < 65537 }
{
    let mut values = [0; 8];
    let mut after = state;
    for i in 0..variables {
        after = draw_from(after);
        values[i as usize] = (after % u32::from(variables)) as u8;
    }
    Values { values, after }
}
