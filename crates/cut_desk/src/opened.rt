//! A file that stays open between the reads of one name.
ghost use Rattle.std.specs.Prelude.{◌≡◌, ◌≤◌, IfSome, IsSome, length};
ghost use Rattle.std.specs.Str.{bytes_eq};
ghost use Rattle.cut_desk.specs.Opened.{IsKeptOpen, open_file_for};

use std::marker::Model;

/// How many bytes the longest name has that is kept.
const LONGEST: usize = 4096;

/// A name of at most 4,096 bytes.
#[derive(Drop)]
struct FileName {
    bytes: [u8; LONGEST],
    length: usize,
}

impl Model for FileName {
    ghost use Rattle.std.specs.Prelude.{◌≤◌, ℕ, List, take};

    ghost Value = { List ℕ };

    ghost view = { λ n. take n.length n.bytes };

    ghost invariant = { λ n. n.length ≤ 4096 };
}

impl FileName {
    fn new(name: &str) -> Option<FileName>
        ensures name { IfSome result (λ kept. kept ≡ name.now) }
        ensures fits { length name.now ≤ 4096 → IsSome result }
    {
        let length = name.len();
        if length > LONGEST {
            return None;
        }
        let mut bytes = [0u8; LONGEST];
        bytes[..length].copy_from_slice(name.as_bytes());
        Some(FileName { bytes, length })
    }

    fn is(&self, name: &str) -> bool
        ensures { result ≡ bytes_eq self.now name.now }
    {
        &self.bytes[..self.length] == name.as_bytes()
    }
}

/// A file that is open, and its name.
#[derive(Drop)]
pub struct Opened<F: Drop> {
    name: FileName,
    file: F,
}

impl<F: Drop> Opened<F> {
    /// Keeps a file open under a name; closes it where the name has more than 4,096 bytes.
    pub fn new(name: &str, file: F) -> Option<Opened<F>>
        ensures kept { IsKeptOpen name.now result }
        ensures file { IfSome result (λ kept. kept.file ≡ file) }
    {
        let name = FileName::new(name)?;
        Some(Opened { name, file })
    }
}

/// The open file in which a read of a name at a place goes on; any other is closed.
///
/// A read at place 0 goes on in none, so that it opens the file anew.
pub fn file_for<F: Drop>(opened: Option<Opened<F>>, name: &str, at: u64) -> Option<F>
    ensures { result ≡ open_file_for opened name.now at }
{
    let opened = opened?;
    if at == 0 || !opened.name.is(name) {
        return None;
    }
    Some(opened.file)
}
