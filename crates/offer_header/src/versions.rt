//! The limits that a version sets.

ghost use Rattle.std.specs.Prelude.{◌≡◌};
ghost use Rattle.swap_digraph.specs.Deal.{most_arcs, most_parties, version_path_limit};

use swap_digraph::Version;

/// The most parties: 24 in version 1 and 32 in version 2.
pub(crate) fn most_parties(version: Version) -> u64
    ensures { result ≡ most_parties version }
{
    match version {
        Version::One => 24,
        Version::Two => 32,
    }
}

/// The most arcs: 96 in version 1 and 128 in version 2.
pub(crate) fn most_arcs(version: Version) -> u64
    ensures { result ≡ most_arcs version }
{
    match version {
        Version::One => 96,
        Version::Two => 128,
    }
}

/// The most parties on a path: 24 in version 1 and 32 in version 2.
pub(crate) fn version_path_limit(version: Version) -> u64
    ensures { result ≡ version_path_limit version }
{
    match version {
        Version::One => 24,
        Version::Two => 32,
    }
}
