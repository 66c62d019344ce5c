// The bytes of a book.
ghost use Rattle.std.specs.Prelude.{◌≡◌, ◌≤◌, ◌<◌, ◌^◌, ◌++◌, length, IfOk, OnOk};
ghost use Rattle.book_file.specs.Spelling.{spelling, header_bytes, entry_bytes};

use crate::book::RowBook;
use crate::limits::{BOOK_MAGIC, BOOK_VERSION};
use star_io::NoMemory;

impl RowBook {
    /// The one spelling of the book: `STARBOOK`, the byte 1, the epoch, the number of dropped
    /// records and the number of entries, and then each entry: its count, the length of its frame
    /// in two bytes, and the frame. Numbers are big-endian, of four bytes where nothing else is
    /// said.
    pub fn to_bytes(&self) -> Result<Vec<u8>, NoMemory>
        ensures { IfOk result (λ bytes. bytes.items ≡ spelling self.now) }
    {
        self.know();
        let mut bytes = self.header()?;
        for (frame, count) in self.iter() {
            push_entry(&mut bytes, frame.as_slice(), *count)?;
        }
        Ok(bytes)
    }

    // What stands before the entries.
    fn header(&self) -> Result<Vec<u8>, NoMemory>
        ensures { IfOk result (λ bytes. bytes.items ≡ header_bytes self.now) }
    {
        self.know();
        let mut bytes = Vec::from_slice(self.alloc, &BOOK_MAGIC)?;
        bytes.push(BOOK_VERSION)?;
        bytes.extend_from_slice(&self.epoch.to_be_bytes())?;
        bytes.extend_from_slice(&self.dropped.to_be_bytes())?;
        bytes.extend_from_slice(&(self.entries.len() as u32).to_be_bytes())?;
        Ok(bytes)
    }
}

// Puts an entry last.
fn push_entry(bytes: &mut Vec<u8>, frame: &[u8], count: u32) -> Result<(), NoMemory>
    requires { length frame.now < 2 ^ 16 }
    ensures { OnOk result (bytes.new.items ≡ bytes.old.items ++ entry_bytes (frame.now, count)) }
{
    bytes.extend_from_slice(&count.to_be_bytes())?;
    bytes.extend_from_slice(&(frame.len() as u16).to_be_bytes())?;
    bytes.extend_from_slice(frame)?;
    Ok(())
}
