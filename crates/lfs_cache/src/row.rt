// The bytes of one sector, in memory of their own.
ghost use Rattle.std.specs.Prelude.{◌≡◌, IfOk};

use std::alloc::{AllocError, Global};
use std::marker::Model;

/// The bytes of a sector on the heap, so that a move of the row moves none of them. Contracts see
/// it as its bytes.
#[derive(Drop)]
pub(crate) struct Row {
    bytes: Box<[u8; 512]>,
}

impl Model for Row {
    ghost use Rattle.std.specs.Prelude.{ℕ, List};

    ghost Value = { List ℕ };

    ghost view = { λ r. r.bytes.value };
}

impl Row {
    /// A row of these bytes: the one that was had, filled with them, or one in memory that is asked
    /// for.
    ///
    /// # Errors
    ///
    /// Where none was had, and memory is refused.
    pub(crate) fn of(had: Option<Row>, alloc: Global, bytes: &[u8; 512]) -> Result<Row, AllocError>
        ensures { IfOk result (λ row. row ≡ bytes.now) }
    {
        if let Some(mut row) = had {
            row.fill(bytes);
            return Ok(row);
        }
        match Box::new(alloc, *bytes) {
            Ok(bytes) => Ok(Row { bytes }),
            Err(_) => Err(AllocError),
        }
    }

    /// Puts other bytes in the place of those that stand here.
    pub(crate) fn fill(&mut self, bytes: &[u8; 512])
        ensures { self.new ≡ bytes.now }
    {
        *self.bytes = *bytes;
    }

    /// The bytes.
    pub(crate) fn bytes(&self) -> &[u8; 512]
        ensures { result.now ≡ self.now }
    {
        &self.bytes
    }
}
