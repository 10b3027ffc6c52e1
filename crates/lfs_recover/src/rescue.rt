//! A volume that is gone through, and what came out of it so far.
ghost use Rattle.lfs_salvage.specs.Telling.{TellsNothing};

use crate::contents::{Stop, Text, fill, text_of};
use crate::host_paths::{HostPaths, LOST, below, by_number, on_host};
use crate::telling::{tell_lost, tell_moved, tell_part, tell_path, tell_strays};
use lfs_device::SectorDevice;
use lfs_host::fault::Fault;
use lfs_host::host;
use lfs_host::host::{HostFault, made};
use lfs_layout::{Checkpoint, Inode};
use lfs_model::Kind;
use lfs_places::Places;
use lfs_salvage::{
    Addresses, Entry, Flaw, Listing, NUMBERS, Object, ROOT, Readings, Walk, list, named_by,
    read_addresses,
};
use std::alloc::{AllocError, Global};
use std::fs::File;
use std::io::Write;
use std::rt::Files;
use std::{fs, str};

/// How many names in the folder of the lost are tried for an object.
const MOST_TRIES: u32 = 4;

/// What became of an object that was to be made on the host.
#[derive(Clone, Copy, PartialEq, Eq)]
enum Made {
    Done,
    /// The host can't have the name.
    Unnamed,
    /// The host can't have such a thing.
    Unfit,
}

/// What is gone through, and how far that has come.
#[derive(Drop)]
pub struct Rescue<'a> {
    /// The folder of the host that is made.
    folder: &'a str,
    addresses: Addresses,
    readings: Readings,
    walk: Walk,
    paths: HostPaths,
    /// The places of the volume.
    places: Places,
    /// How many files came out whole, and how many in part.
    pub whole: u64,
    pub in_part: u64,
    /// Whether something is missing, or isn't under its own name.
    pub is_lacking: bool,
    /// Whether the volume has a directory of the name that the folder of the lost has.
    has_lost: bool,
}

// A fault of a thing of the host.
fn at_host(alloc: Global, name: &str, stop: Stop) -> Fault {
    match stop {
        Stop::Memory(error) => Fault::Memory(error),
        Stop::Host(fault) => Fault::of_host(alloc, name, fault),
    }
}

// What a name of the host that can't be had stops, and what doesn't.
fn judged(alloc: Global, name: &str, done: Result<(), HostFault>) -> Result<Made, Fault> {
    match done {
        Ok(()) => Ok(Made::Done),
        Err(fault) if fault.is_of_name() => Ok(Made::Unnamed),
        Err(fault) => Err(Fault::of_host(alloc, name, fault)),
    }
}

// Makes a link of the host of a text, which has to be UTF-8 without a zero byte.
fn link_to<R: Files<File = File>>(
    rt: &R,
    alloc: Global,
    text: &[u8],
    name: &str,
) -> Result<Made, Fault> {
    match str::from_utf8(text) {
        Ok(text) if !text.as_bytes().contains(&0) => {
            judged(alloc, name, host::make_link(rt, text, name))
        }
        _ => Ok(Made::Unfit),
    }
}

impl<'a> Rescue<'a> {
    /// Begins with a checkpoint of a volume by these places.
    ///
    /// # Errors
    ///
    /// Where memory runs out.
    pub fn new<D: SectorDevice>(
        alloc: Global,
        device: &mut D,
        places: Places,
        checkpoint: &Checkpoint,
        folder: &'a str,
    ) -> Result<Rescue<'a>, AllocError>
        ensures { TellsNothing (D.state device.old) (D.state device.new) }
    {
        Ok(Rescue {
            folder,
            addresses: read_addresses(alloc, device, checkpoint)?,
            readings: Readings::new(alloc, checkpoint.segments)?,
            walk: Walk::new(alloc)?,
            paths: HostPaths::new(alloc)?,
            places,
            whole: 0,
            in_part: 0,
            is_lacking: false,
            has_lost: false,
        })
    }

    /// The blocks of the inode map that are missing.
    pub fn gaps(&self) -> &[(u32, u32)] {
        self.addresses.gaps()
    }

    // Tells what is amiss with a file, and counts it.
    fn count<W: Write>(
        &mut self,
        path: &[u8],
        flaws: &[Flaw],
        output: &mut W,
    ) -> Result<(), Fault> {
        if flaws.is_empty() {
            self.whole = self.whole.saturating_add(1);
            return Ok(());
        }
        self.in_part = self.in_part.saturating_add(1);
        self.is_lacking = true;
        tell_part(output, self.places, path, flaws)
    }

    // Makes a file of the host.
    fn make_file<D: SectorDevice, R: Files<File = File>, W: Write>(
        &mut self,
        rt: &R,
        alloc: Global,
        device: &mut D,
        inode: &Inode,
        path: &[u8],
        name: &str,
        output: &mut W,
    ) -> Result<Made, Fault>
        ensures { TellsNothing (D.state device.old) (D.state device.new) }
    {
        let file = match host::make_file(rt, name) {
            Ok(file) => file,
            Err(fault) => return judged(alloc, name, Err(fault)),
        };
        match fill(alloc, device, &mut self.readings, inode, &file) {
            Ok(flaws) => {
                self.count(path, flaws.as_slice(), output)?;
                Ok(Made::Done)
            }
            Err(stop) => Err(at_host(alloc, name, stop)),
        }
    }

    // Makes a folder of the host. The volume may have one for the lost too.
    fn make_folder<R: Files<File = File>>(
        &mut self,
        rt: &R,
        alloc: Global,
        path: &[u8],
        name: &str,
    ) -> Result<Made, Fault> {
        if path == LOST {
            self.has_lost = true;
            return Ok(Made::Done);
        }
        judged(alloc, name, host::make_folder(rt, name))
    }

    // Tells what is amiss with a link that was made.
    fn tell_link<W: Write>(
        &mut self,
        path: &[u8],
        text: &Text,
        output: &mut W,
    ) -> Result<(), Fault> {
        let Some(sector) = text.past_end else {
            return Ok(());
        };
        self.is_lacking = true;
        tell_part(output, self.places, path, &[Flaw::PastEnd(sector)])
    }

    // Makes a link of the host.
    fn make_link<D: SectorDevice, R: Files<File = File>, W: Write>(
        &mut self,
        rt: &R,
        alloc: Global,
        device: &mut D,
        inode: &Inode,
        path: &[u8],
        name: &str,
        output: &mut W,
    ) -> Result<Made, Fault>
        ensures { TellsNothing (D.state device.old) (D.state device.new) }
    {
        let Some(text) = text_of(alloc, device, &mut self.readings, inode)? else {
            return Ok(Made::Unfit);
        };
        match link_to(rt, alloc, text.bytes.as_slice(), name)? {
            Made::Done => {
                self.tell_link(path, &text, output)?;
                Ok(Made::Done)
            }
            made => Ok(made),
        }
    }

    // Makes an object at a path below the folder.
    fn make<D: SectorDevice, R: Files<File = File>, W: Write>(
        &mut self,
        rt: &R,
        alloc: Global,
        device: &mut D,
        inode: &Inode,
        path: &[u8],
        output: &mut W,
    ) -> Result<Made, Fault>
        ensures { TellsNothing (D.state device.old) (D.state device.new) }
    {
        let Some(name) = on_host(alloc, self.folder, path)? else {
            return Ok(Made::Unnamed);
        };
        match inode.kind {
            Kind::File => self.make_file(rt, alloc, device, inode, path, name.as_str(), output),
            Kind::Directory => self.make_folder(rt, alloc, path, name.as_str()),
            Kind::Link => self.make_link(rt, alloc, device, inode, path, name.as_str(), output),
        }
    }

    // An object stands at a path now, and what is below it comes later.
    fn settle(&mut self, inode: &Inode, path: Vec<u8>) -> Result<(), AllocError> {
        self.paths.set(inode, path);
        match inode.kind {
            Kind::Directory => self.walk.push(inode.number),
            Kind::File | Kind::Link => Ok(()),
        }
    }

    // Tells that something doesn't come out.
    fn omit<W: Write>(&mut self, path: &[u8], output: &mut W) -> Result<(), Fault> {
        self.is_lacking = true;
        tell_path(output, b"omitted ", path)
    }

    // The same of an object without a name.
    fn omit_number<W: Write>(
        &mut self,
        alloc: Global,
        number: u32,
        output: &mut W,
    ) -> Result<(), Fault> {
        let place = by_number(alloc, number, 0)?;
        self.omit(place.as_slice(), output)
    }

    // Tells where an object stands that has no name, or one that the host can't have.
    fn tell_place<W: Write>(
        &mut self,
        path: Option<&[u8]>,
        place: &[u8],
        output: &mut W,
    ) -> Result<(), Fault> {
        self.is_lacking = true;
        match path {
            Some(path) => tell_moved(output, path, place),
            None => tell_path(output, b"found ", place),
        }
    }

    // Puts an object among the lost, under its number.
    fn put_to_lost<D: SectorDevice, R: Files<File = File>, W: Write>(
        &mut self,
        rt: &R,
        alloc: Global,
        device: &mut D,
        inode: &Inode,
        path: Option<&[u8]>,
        output: &mut W,
    ) -> Result<(), Fault>
        ensures { TellsNothing (D.state device.old) (D.state device.new) }
    {
        for tries in 0..MOST_TRIES {
            let place = by_number(alloc, inode.number, tries)?;
            match self.make(rt, alloc, device, inode, place.as_slice(), output)? {
                Made::Done => {
                    self.tell_place(path, place.as_slice(), output)?;
                    return Ok(self.settle(inode, place)?);
                }
                Made::Unnamed => {}
                Made::Unfit => break,
            }
        }
        match path {
            Some(path) => self.omit(path, output),
            None => self.omit_number(alloc, inode.number, output),
        }
    }

    // Puts an object at its path, or among the lost where the host can't have that.
    fn put_object<D: SectorDevice, R: Files<File = File>, W: Write>(
        &mut self,
        rt: &R,
        alloc: Global,
        device: &mut D,
        inode: &Inode,
        path: Vec<u8>,
        output: &mut W,
    ) -> Result<(), Fault>
        ensures { TellsNothing (D.state device.old) (D.state device.new) }
    {
        match self.make(rt, alloc, device, inode, path.as_slice(), output)? {
            Made::Done => Ok(self.settle(inode, path)?),
            Made::Unnamed => {
                self.put_to_lost(rt, alloc, device, inode, Some(path.as_slice()), output)
            }
            Made::Unfit => self.omit(path.as_slice(), output),
        }
    }

    // Gives a file or a link of the host a further name: whether the host can have it.
    fn link<R: Files<File = File>>(
        &self,
        rt: &R,
        alloc: Global,
        place: &[u8],
        path: &[u8],
    ) -> Result<bool, AllocError> {
        let Some(place) = on_host(alloc, self.folder, place)? else {
            return Ok(false);
        };
        let Some(name) = on_host(alloc, self.folder, path)? else {
            return Ok(false);
        };
        Ok(made(fs::hard_link(rt, place.as_str(), name.as_str())).is_ok())
    }

    // A further name of an object, which the host gets as a further name too. Of a directory it is
    // told where that stands.
    fn put_name<R: Files<File = File>, W: Write>(
        &mut self,
        rt: &R,
        alloc: Global,
        number: u32,
        path: &[u8],
        output: &mut W,
    ) -> Result<(), Fault> {
        let place = self.paths.get(number).to_vec(alloc)?;
        if place.is_empty() && number != ROOT {
            return self.omit(path, output);
        }
        if self.link(rt, alloc, place.as_slice(), path)? {
            return Ok(());
        }
        self.tell_place(Some(path), place.as_slice(), output)
    }

    // An entry of a directory comes out.
    fn take_entry<D: SectorDevice, R: Files<File = File>, W: Write>(
        &mut self,
        rt: &R,
        alloc: Global,
        device: &mut D,
        above: &[u8],
        entry: &Entry,
        output: &mut W,
    ) -> Result<(), Fault>
        ensures { TellsNothing (D.state device.old) (D.state device.new) }
    {
        let path = below(alloc, above, entry.name.as_slice())?;
        if !self.walk.meet(entry.number) {
            return self.put_name(rt, alloc, entry.number, path.as_slice(), output);
        }
        match self.addresses.object(device, entry.number) {
            Object::There(inode) => { self.put_object(rt, alloc, device, &inode, path, output) }
            Object::Lost(sector) => {
                self.is_lacking = true;
                tell_lost(output, self.places, path.as_slice(), sector)
            }
            Object::Absent => {
                self.is_lacking = true;
                tell_lost(output, self.places, path.as_slice(), 0)
            }
        }
    }

    // Tells what is amiss with a directory.
    fn tell_listing<W: Write>(
        &mut self,
        path: &[u8],
        listing: &Listing,
        output: &mut W,
    ) -> Result<(), Fault> {
        if listing.flaws.is_empty() && listing.strays.is_empty() {
            return Ok(());
        }
        self.is_lacking = true;
        tell_part(output, self.places, path, listing.flaws.as_slice())?;
        tell_strays(output, self.places, listing.strays.as_slice())
    }

    // Goes through a directory.
    fn open<D: SectorDevice, R: Files<File = File>, W: Write>(
        &mut self,
        rt: &R,
        alloc: Global,
        device: &mut D,
        number: u32,
        output: &mut W,
    ) -> Result<(), Fault>
        ensures { TellsNothing (D.state device.old) (D.state device.new) }
    {
        let Object::There(inode) = self.addresses.object(device, number) else {
            return Ok(());
        };
        let above = self.paths.get(number).to_vec(alloc)?;
        let listing = list(alloc, device, &mut self.readings, &inode)?;
        self.tell_listing(above.as_slice(), &listing, output)?;
        for entry in &listing.entries {
            self.take_entry(rt, alloc, device, above.as_slice(), entry, output)?;
        }
        Ok(())
    }

    // Goes through all directories that wait for it.
    fn open_all<D: SectorDevice, R: Files<File = File>, W: Write>(
        &mut self,
        rt: &R,
        alloc: Global,
        device: &mut D,
        output: &mut W,
    ) -> Result<(), Fault>
        ensures { TellsNothing (D.state device.old) (D.state device.new) }
    {
        for _ in 0..NUMBERS {
            let Some(number) = self.walk.next_directory() else {
                break;
            };
            self.open(rt, alloc, device, number, output)?;
        }
        Ok(())
    }

    // Brings out an object that no name led to, with all below it.
    fn take_nameless<D: SectorDevice, R: Files<File = File>, W: Write>(
        &mut self,
        rt: &R,
        alloc: Global,
        device: &mut D,
        number: u32,
        output: &mut W,
    ) -> Result<(), Fault>
        ensures { TellsNothing (D.state device.old) (D.state device.new) }
    {
        if !self.walk.meet(number) {
            return Ok(());
        }
        let Object::There(inode) = self.addresses.object(device, number) else {
            return Ok(());
        };
        self.put_to_lost(rt, alloc, device, &inode, None, output)?;
        self.open_all(rt, alloc, device, output)
    }

    // Brings out what no name led to and no directory among that names.
    fn take_unnamed<D: SectorDevice, R: Files<File = File>, W: Write>(
        &mut self,
        rt: &R,
        alloc: Global,
        device: &mut D,
        named: &[bool],
        output: &mut W,
    ) -> Result<(), Fault>
        ensures { TellsNothing (D.state device.old) (D.state device.new) }
    {
        let mut number: u32 = 0;
        for is_named in named {
            if !*is_named {
                self.take_nameless(rt, alloc, device, number, output)?;
            }
            number = number.saturating_add(1);
        }
        Ok(())
    }

    // Brings out what no name led to: first what no such directory names.
    fn take_all_nameless<D: SectorDevice, R: Files<File = File>, W: Write>(
        &mut self,
        rt: &R,
        alloc: Global,
        device: &mut D,
        output: &mut W,
    ) -> Result<(), Fault>
        ensures { TellsNothing (D.state device.old) (D.state device.new) }
    {
        let named = self.named(alloc, device)?;
        self.take_unnamed(rt, alloc, device, named.as_slice(), output)?;
        for number in 0..NUMBERS {
            self.take_nameless(rt, alloc, device, number, output)?;
        }
        Ok(())
    }

    // Whether a directory that no name led to names a number. It reads for nobody.
    fn named<D: SectorDevice>(&self, alloc: Global, device: &mut D) -> Result<Vec<bool>, AllocError>
        ensures { TellsNothing (D.state device.old) (D.state device.new) }
    {
        let mut readings = self.readings.anew(alloc)?;
        named_by(alloc, device, &mut readings, &self.addresses, &self.walk)
    }

    // Begins with the root.
    fn take_root<D: SectorDevice, W: Write>(
        &mut self,
        device: &mut D,
        output: &mut W,
    ) -> Result<(), Fault>
        ensures { TellsNothing (D.state device.old) (D.state device.new) }
    {
        self.walk.meet(0);
        match self.addresses.object(device, ROOT) {
            Object::There(inode) if inode.kind == Kind::Directory => {
                self.walk.meet(ROOT);
                Ok(self.walk.push(ROOT)?)
            }
            Object::There(_) => Ok(()),
            Object::Lost(sector) => {
                self.is_lacking = true;
                tell_lost(output, self.places, b"", sector)
            }
            Object::Absent => {
                self.is_lacking = true;
                tell_lost(output, self.places, b"", 0)
            }
        }
    }

    // Makes the folder of the lost. It goes again where nothing comes to be in it.
    fn make_lost<R: Files<File = File>>(&self, rt: &R, alloc: Global) -> Result<String, Fault> {
        let folder = self.folder;
        let name = format!(in alloc; "{folder}/lost+found")?;
        match host::make_folder(rt, name.as_str()) {
            Ok(()) => Ok(name),
            Err(fault) => Err(Fault::of_host(alloc, name.as_str(), fault)),
        }
    }

    /// Brings out all that the volume still holds.
    ///
    /// # Errors
    ///
    /// Where memory runs out, standard output can't be written, or something of the host can't be
    /// made or written.
    pub fn take_all<D: SectorDevice, R: Files<File = File>, W: Write>(
        &mut self,
        rt: &R,
        alloc: Global,
        device: &mut D,
        output: &mut W,
    ) -> Result<(), Fault>
        ensures { TellsNothing (D.state device.old) (D.state device.new) }
    {
        let lost = self.make_lost(rt, alloc)?;
        self.take_root(device, output)?;
        self.open_all(rt, alloc, device, output)?;
        self.take_all_nameless(rt, alloc, device, output)?;
        if !self.has_lost {
            let _ = fs::remove_dir(rt, lost.as_str());
        }
        Ok(())
    }
}
