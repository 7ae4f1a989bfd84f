//! What the definitions of `specs/` come to in plain words. Each law is the contract of a function that does nothing.

ghost use Rattle.std.specs.Prelude.{ℕ, ◌≡◌, ◌≢◌, ◌↔◌, ◌<◌, ◌≤◌, ◌∷◌, ◌++◌, All, Contains, List, Some, codes, length, map, false, true};
ghost use Rattle.std.specs.Char.{to_ascii_lowercase};
ghost use Rattle.std.specs.List.{AllPairs, join_with_byte};
ghost use Rattle.std.specs.Str.{IsUtf8};
ghost use Rattle.hex.specs.Hex.{encode_lower, encode_upper};
ghost use Rattle.seq_base.specs.Ids.{HasIdWidth, SpellsId};
ghost use Rattle.seq_base.specs.Modes.{mode_number, mode_text, octal};
ghost use Rattle.seq_base.specs.PathMaps.{IsPathMap, clashes, entry_at, is_less, put};
ghost use Rattle.seq_base.specs.RefNames.{IsRefName};
ghost use Rattle.seq_base.specs.Repository.{is_in_place};
ghost use Rattle.seq_base.specs.StorePaths.{IsStorePath};
ghost use Rattle.seq_base.specs.Paths.{IsFirstBad, IsPath, IsPlainPart, first_bad, parts};
ghost use Rattle.seq_base.specs.World.{is_below};

use crate::map::Entry;
use crate::mode::Mode;
use crate::path::Path;

/// A mode's number is what its digits spell.
pub fn mode_digits_spell_number(mode: Mode)
    ensures { mode_number mode ≡ octal (mode_text mode) }
{}

/// Text reads as an id exactly where it is the id's hex with its letters in either case. So what `hex` writes reads back.
pub fn hex_reads_back(id: &[u8], text: &[u8])
    requires { HasIdWidth id.now }
    ensures either_case { SpellsId id.now text.now ↔ (map to_ascii_lowercase text.now ≡ encode_lower id.now) }
    ensures lower { SpellsId id.now (encode_lower id.now) }
    ensures upper { SpellsId id.now (encode_upper id.now) }
{}

/// A path is text of 1 to 4,095 bytes, each part of which is plain.
pub fn path_has_plain_parts(bytes: &[u8])
    ensures { IsPath bytes.now ↔ ((0 < length bytes.now) × (length bytes.now ≤ 4095) × IsUtf8 bytes.now × All IsPlainPart (parts bytes.now)) }
{}

/// The parts, with a slash between each two, are the path.
pub fn parts_make_up_path(bytes: &[u8])
    ensures { join_with_byte 47 (parts bytes.now) ≡ bytes.now }
{}

/// The place of a bad part is where the first part begins that is not plain.
pub fn bad_part_is_first(bytes: &[u8], at: usize)
    ensures { first_bad 0 (parts bytes.now) ≡ Some at → IsFirstBad bytes.now at }
{}

/// A path lies below another where it goes on behind it with a slash.
pub fn path_below_goes_on(folder: &[u8], path: &[u8])
    ensures { (is_below folder.now path.now ≡ true) ↔ ((rest : List ℕ) × (path.now ≡ folder.now ++ 47 ∷ rest)) }
{}

/// A path map has its paths in byte order, none below another, and no folder.
pub fn map_is_in_order(entries: &[(Path, Entry)])
    ensures order { IsPathMap entries.now → AllPairs (λ a b. (is_less a.0 b.0 ≡ true) × (clashes a.0 b.0 ≡ false)) entries.now }
    ensures files { IsPathMap entries.now → All (λ e. e.1.mode ≢ Mode.Folder) entries.now }
{}

/// A map has at a path what it holds under that path.
pub fn entry_is_held(entries: &[(Path, Entry)], path: &Path, entry: Entry)
    ensures { IsPathMap entries.now → (entry_at entries.now path.now ≡ Some entry) ↔ Contains entries.now (path.now, entry) }
{}

/// What was put at a path is found there, and every other path has what it had.
pub fn put_changes_one_path(entries: &[(Path, Entry)], path: &Path, entry: Entry)
    ensures found { entry_at (put entries.now path.now entry) path.now ≡ Some entry }
    ensures others { (other : List ℕ) → other ≢ path.now → entry_at (put entries.now path.now entry) other ≡ entry_at entries.now other }
{}

/// The file of a ref and that of its log may be held by a store, and stand in no other file's place.
#[tactic(auto, using(crate::proofs::RefPaths::ref_paths))]
pub fn ref_has_store_paths(name: &[u8])
    requires { IsRefName name.now }
    ensures stored { IsStorePath (codes ".git/" ++ name.now) }
    ensures in_place { is_in_place (codes ".git/" ++ name.now) ≡ true }
    ensures log_stored { IsStorePath (codes ".git/logs/" ++ name.now) }
    ensures log_in_place { is_in_place (codes ".git/logs/" ++ name.now) ≡ true }
{}
