ghost use Rattle.std.specs.Prelude.{◌≡◌};
ghost use Rattle.spelled_counts.specs.Counts.{within, count_of};

fn within(most: u32, count: u32) -> Option<u32>
    ensures { result ≡ within most count }
{
    if 1 <= count && count <= most {
        Some(count)
    } else {
        None
    }
}

/// The count from 1 to `most` that these digits spell, without leading zeros.
pub fn count_of(most: u32, digits: &str) -> Option<u32>
    ensures { result ≡ count_of most digits.now }
{
    if digits.starts_with('0') || digits.starts_with('+') {
        return None;
    }
    match digits.parse::<u32>() {
        Ok(count) => within(most, count),
        Err(_) => None,
    }
}
