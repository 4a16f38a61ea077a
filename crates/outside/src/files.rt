//! Files in memory, by name.
ghost use Rattle.std.specs.Prelude.{◌≡◌, ◌≤◌, ◌-◌, length, drop, min, MatchOption, None, Some};
ghost use Rattle.outside.specs.Files.{file_named};
ghost use Rattle.outside.specs.Told.{GivesFront};

/// The bytes of the first file of a name. It takes time linear in the files.
pub fn find<'a>(files: &'a [(String, Vec<u8>)], name: &str) -> Option<&'a [u8]>
    ensures { MatchOption result (file_named files.now name.now ≡ None) (λ bytes. file_named files.now name.now ≡ Some bytes.now) }
{
    for file in files {
        if file.0.as_str() == name {
            return Some(file.1.as_slice());
        }
    }
    None
}

/// Fills a front of `b` with the bytes from `at` on, as far as there are some, and answers how many
/// that were.
pub fn give(bytes: &[u8], at: u64, b: &mut [u8]) -> usize
    ensures count { result ≡ min (length b.old) (length bytes.now - at) }
    ensures front { GivesFront (drop at bytes.now) result b.new }
    ensures bound { result ≤ length b.new }
{
    if at >= bytes.len() as u64 {
        return 0;
    }
    let left = &bytes[at as usize..];
    let n = left.len().min(b.len());
    b[..n].copy_from_slice(&left[..n]);
    n
}
