//! How many trees stand on the chains of paths.

ghost use Rattle.std.specs.Prelude.{◌≡◌, ◌==◌, false, length};
ghost use Rattle.std.specs.List.{AllByRecursion};
ghost use Rattle.object_text.specs.TreeMaps.{is_too_deep as is_too_deep_map};
ghost use Rattle.seq_base.specs.Paths.{IsPath, parts};

use seq_base::{Entry, Path};

/// How many parts a path has, which is how many trees stand on its chain.
fn depth(path: &[u8]) -> usize
    ensures { result ≡ length (parts path.now) }
{
    path.split(|b| *b == b'/').count()
}

#[tactic(auto, unfolding(object_text::specs::TreeMaps::is_too_deep))]
/// Whether the last tree of a path's chain could not be read back. Else each of these is known to be a path.
pub fn is_too_deep(rows: &[(Path, Entry)]) -> bool
    ensures deep { result ≡ is_too_deep_map rows.now }
    ensures paths { result ≡ false → AllByRecursion (λ e. IsPath e.0) rows.now }
{
    let mut rest = rows;
    while let [row, after @ ..] = rest {
        if depth(row.0.bytes()) > 256 {
            return true;
        }
        rest = after;
    }
    false
}
