// The generator of a disk in memory.
ghost use Rattle.std.specs.Prelude.{◌≡◌, ◌<◌};
ghost use Rattle.ori_volmem.specs.Memory.{next_state, drawn};

/// The next state of the generator.
pub fn next_seed(seed: u64) -> u64
    ensures { result ≡ next_state seed }
{
    seed.wrapping_mul(6364136223846793005)
        .wrapping_add(1442695040888963407)
}

/// A number below `below`, drawn from a seed.
pub fn draw(seed: u64, below: u64) -> u64
    requires { 0 < below }
    ensures value { result ≡ drawn seed below }
    ensures bound { result < below }
{
    (next_seed(seed) >> 33) % below
}
