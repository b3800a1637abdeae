// Numbers as the plates reckon with them.
ghost use Rattle.std.specs.Prelude.{◌≡◌, ◌<◌};
ghost use Rattle.std.proofs.Math.IntN.{sub_ℕ};
ghost use Rattle.capacity.specs.Whole.{floor_div};
ghost use Rattle.figuring.specs.Positive.{positive};

// The largest whole number not above (gain - loss) / divisor, where it is at least 1.
// Kept (4): the library's `/` has the division; this says once that plates have no figure where it gives 0.
pub fn whole_part(gain: u64, loss: u64, divisor: u64) -> Option<u64>
    requires { 0 < divisor }
    ensures { result ≡ positive (floor_div (sub_ℕ gain loss) divisor) }
{
    match gain.saturating_sub(loss) / divisor {
        0 => None,
        whole => Some(whole),
    }
}
