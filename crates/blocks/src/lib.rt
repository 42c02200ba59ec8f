// Copying a block into a buffer from a place on.
#![tactic(auto)]

ghost use Rattle.std.specs.Prelude.{◌≡◌, ◌+◌, ◌≤◌, length};
ghost use Rattle.std.proofs.Math.Seq.{paste};

pub fn put<T: Copy>(out: &mut [T], at: usize, block: &[T])
    requires { at + length block.now ≤ length out.old }
    ensures { out.new ≡ paste out.old at block.now (length block.now) }
{
    for j in 0..block.len() {
        out[at + j] = block[j];
    }
}
