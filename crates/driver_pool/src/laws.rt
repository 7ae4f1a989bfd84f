//! What holds of commands whatever their paths. The functions do nothing: their contracts are the laws.

ghost use Rattle.std.specs.Prelude.{◌≡◌, Some};
ghost use Rattle.driver_pool.specs.Commands.{quoted};
ghost use Rattle.driver_pool.specs.ShellWords.{word_of};
ghost use Rattle.driver_pool.specs.ShellWords.Mode.{plain};

/// The shell reads a quoted path as one word, which is the path byte by byte.
#[tactic(auto, using(crate::proofs::Quoting::read_quoted))]
pub fn a_quoted_path_is_one_word(path: &[u8])
    ensures { word_of plain (quoted path.now) ≡ Some path.now }
{}
