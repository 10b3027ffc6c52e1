//! Random batches of changes over a plain map.
ghost use Rattle.std.specs.Prelude.{◌<◌, ◌≤◌};

use crate::plain::{NO_FILE, PlainMap, edge, number_of};
use lfs_model::Kind;
use lfs_store::volume_log::{Changes, Cut, Header, LastLink, Loss, Removal};
use rand_core::Rng;
use rand_pcg::Pcg32;
use std::alloc::{AllocError, Global};

/// Numbers that a seed chooses.
#[derive(Drop)]
pub struct Dice {
    generator: Pcg32,
    /// How many were chosen.
    pub rolls: u32,
}

impl Dice {
    pub fn new(seed: u32) -> Dice {
        Dice {
            generator: Pcg32::new(u64::from(seed), 1),
            rolls: 0,
        }
    }

    /// A number below this one.
    pub fn roll(&mut self, end: u32) -> u32
        requires { 0 < end }
        ensures { result < end }
    {
        self.rolls = self.rolls.saturating_add(1);
        self.generator.next_u32() % end
    }
}

/// A batch of changes, and the files before it and after it.
#[derive(Drop)]
pub struct Batch {
    pub changes: Changes,
    before: PlainMap,
    pub after: PlainMap,
}

impl Batch {
    /// One to four changes.
    pub fn rolled(alloc: Global, before: &PlainMap, dice: &mut Dice) -> Result<Batch, AllocError> {
        let mut batch = Batch {
            changes: Changes::new(alloc, 8, 4)?,
            before: *before,
            after: *before,
        };
        match batch.roll_all(dice) {
            Ok(()) => Ok(batch),
            Err(error) => Err(error),
        }
    }

    /// Perhaps a loss, and one to four changes.
    fn roll_all(&mut self, dice: &mut Dice) -> Result<(), AllocError> {
        self.roll_loss(dice)?;
        let changes = 1 + dice.roll(4);
        for _ in 0..changes {
            self.roll_change(dice)?;
        }
        Ok(())
    }

    /// A file has this header.
    fn put_header(&mut self, file: usize, header: Header) -> Result<(), AllocError>
        requires { file < 6 }
    {
        self.after.files[file].header = Some(header);
        self.changes.put_header(number_of(file), header)
    }

    /// A file is cut, and may be shorter then.
    fn cut(&mut self, file: usize, first: u32, shorter: bool) -> Result<(), AllocError>
        requires file { file < 6 }
        requires first { first ≤ 16623 }
    {
        let number = number_of(file);
        self.changes.loss = Loss::Blocks(Cut { number, first });
        self.after.files[file].cut(first);
        match self.after.files[file].header {
            Some(header) if shorter => {
                let size = header.size.min(512 * first);
                self.put_header(file, Header { size, ..header })
            }
            _ => Ok(()),
        }
    }

    /// A file that has a link loses it.
    fn hide(&mut self, file: usize)
        requires { file < 6 }
    {
        let Some(header) = self.after.files[file].header else {
            return;
        };
        if header.links == 0 {
            return;
        }
        self.changes.loss = Loss::Link(LastLink {
            number: number_of(file),
            kind: Kind::File,
            form: 0,
            size: header.size,
        });
        self.after.files[file].header = Some(Header { links: 0, ..header });
    }

    /// A file goes, whether it is there or not.
    fn remove(&mut self, file: usize)
        requires { file < 6 }
    {
        self.changes.loss = Loss::File(Removal {
            number: number_of(file),
        });
        self.after.files[file] = NO_FILE;
    }

    /// Perhaps a file loses something.
    fn roll_loss(&mut self, dice: &mut Dice) -> Result<(), AllocError> {
        let file = dice.roll(6) as usize;
        match dice.roll(12) {
            0 | 1 => {
                let first = edge(dice.roll(11) as usize);
                return self.cut(file, first, dice.roll(2) == 0);
            }
            2 => self.hide(file),
            3 => self.remove(file),
            _ => {}
        }
        Ok(())
    }

    /// Whether it is what goes.
    fn is_removed(&self, number: u16) -> bool {
        match self.changes.loss {
            Loss::File(removal) => removal.number == number,
            _ => false,
        }
    }

    /// Whether the block of pointers above a block of a file goes.
    fn is_above_cut(&self, number: u16, index: u32) -> bool {
        if index < 112 {
            return false;
        }
        let start = index - (index - 112) % 128;
        match self.changes.loss {
            Loss::Blocks(cut) => cut.number == number && cut.first <= start,
            _ => false,
        }
    }

    /// A file has another size, or is made, seldom without links.
    fn roll_header(&mut self, file: usize, dice: &mut Dice) -> Result<(), AllocError>
        requires { file < 6 }
    {
        if self.is_removed(number_of(file)) {
            return Ok(());
        }
        let plain = self.after.files[file];
        let links = match plain.header {
            Some(header) => header.links,
            None => dice.roll(5).min(1),
        };
        let least = plain.least_size();
        let header = Header {
            kind: Kind::File,
            form: 0,
            links,
            size: least + dice.roll(8_511_489 - least),
        };
        self.put_header(file, header)
    }

    /// Whether a block of a file may change.
    fn may_fill(&self, file: usize, index: u32) -> bool
        requires { file < 6 }
    {
        if self.after.files[file].header.is_none() {
            return false;
        }
        if index >= 112 && self.before.files[file].header.is_none() {
            return false;
        }
        !self.is_above_cut(number_of(file), index)
    }

    /// A block of a file is filled, or goes, and the file is as long as it has to be.
    fn fill(&mut self, file: usize, place: usize, byte: u8) -> Result<(), AllocError>
        requires file { file < 6 }
        requires place { place < 11 }
    {
        if !self.may_fill(file, edge(place)) {
            return Ok(());
        }
        self.changes
            .put_block(number_of(file), edge(place), &[byte; 512])?;
        self.after.files[file].bytes[place] = byte;
        let size = self.after.files[file].least_size();
        match self.after.files[file].header {
            Some(header) if header.size < size => self.put_header(file, Header { size, ..header }),
            _ => Ok(()),
        }
    }

    /// A header or a block changes, if it may.
    fn roll_change(&mut self, dice: &mut Dice) -> Result<(), AllocError> {
        let file = dice.roll(6) as usize;
        if self.after.files[file].header.is_none() || dice.roll(4) == 0 {
            return self.roll_header(file, dice);
        }
        let place = dice.roll(11) as usize;
        self.fill(file, place, dice.roll(4) as u8)
    }
}
