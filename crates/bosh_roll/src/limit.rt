ghost use Rattle.std.specs.Prelude.{◌≡◌, ◌≤◌};
ghost use Rattle.bosh_roll.specs.Limit.{IsShare, limit_of};

use bosh_base::Count;

/// How many instances a count of `canaries` or `max_in_flight` stands for in a group of `size`
/// instances: a number as it is, a percentage of the group rounded down, and never fewer than `least`.
pub fn limit_of(count: Count, size: u32, least: u32) -> u32
    requires size { size ≤ 256 }
    requires share { IsShare count }
    ensures { result ≡ limit_of count size least }
{
    let number = match count {
        Count::Whole(number) => number,
        Count::Percent(share) => size * share / 100,
    };
    number.max(least)
}
