// Counts down the calls of a device in memory to the one that it fails.
ghost use Rattle.std.specs.Prelude.{◌≡◌};
ghost use Rattle.bosh_ports.specs.Failing.{calls_after};

pub(crate) fn count_down(failing: Option<u64>) -> Option<u64>
    ensures { result ≡ calls_after failing }
{
    match failing {
        Some(calls) if calls > 1 => Some(calls - 1),
        _ => None,
    }
}
