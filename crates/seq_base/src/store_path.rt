//! Store paths.

ghost use Rattle.std.specs.Prelude.{◌≡◌, ◌==◌, codes, not};
ghost use Rattle.std.specs.List.{list_all};
ghost use Rattle.std.specs.Str.{bytes_eq};
ghost use Rattle.seq_base.specs.Paths.{parts};
ghost use Rattle.seq_base.specs.World.{is_below};
ghost use Rattle.seq_base.specs.StorePaths.{is_store_part, is_store_path as is_store_path_of, is_text as is_text_of};

fn is_part(part: &[u8]) -> bool
    ensures { result ≡ is_store_part part.now }
{
    !part.is_empty() && part != b".".as_slice() && part != b"..".as_slice() && has_no_nul(part)
}

fn has_no_nul(part: &[u8]) -> bool
    ensures { result ≡ list_all (λ b. not (b == 0)) part.now }
{
    part.iter().all(|b| *b != 0)
}

#[tactic(auto, using(crate::proofs::Texts::text_tests))]
/// Whether bytes are UTF-8.
pub fn is_text(bytes: &[u8]) -> bool
    ensures { result ≡ is_text_of bytes.now }
{
    match str::from_utf8(bytes) {
        Ok(_) => true,
        Err(_) => false,
    }
}

fn has_good_parts(path: &[u8]) -> bool
    ensures { result ≡ list_all is_store_part (parts path.now) }
{
    path.split(|b| *b == b'/').all(|part| is_part(part))
}

/// Whether a store may hold a file there: UTF-8, whose parts between `/` are not empty, not `.` and not `..`, without NUL.
pub fn is_store_path(path: &[u8]) -> bool
    ensures { result ≡ is_store_path_of path.now }
{
    is_text(path) && has_good_parts(path)
}

/// Whether the path lies below the other, taken as a folder.
pub fn lies_below(folder: &[u8], path: &[u8]) -> bool
    ensures { result ≡ is_below folder.now path.now }
{
    path.starts_with(folder) && folder.len() < path.len() && path[folder.len()] == b'/'
}
