// What every crate stands on: laws of Booleans and of stores into lists, and the copying of numbers.
#![tactic(auto)]

ghost use Rattle.std.specs.Prelude.{◌≡◌, ◌≤◌, length};
ghost use Rattle.ground.specs.Lists.{put_first};

// Lays numbers at the start of out, which has room for them.
pub fn copy_numbers(numbers: &[u32], out: &mut [u32])
    requires { length numbers.now ≤ length out.old }
    ensures { out.new ≡ put_first numbers.now out.old }
{
    out[..numbers.len()].copy_from_slice(numbers);
}
