//! A store as the files that the layers above see.
use crate::store::Store;
use lfs_device::SectorDevice;
use lfs_files::{Files, Header, LogFault, StoreFault};
use lfs_model::{FileNumber, Kind};
use std::alloc::Global;

impl<D: SectorDevice> Files for Store<D> {
    ghost use Rattle.lfs_store.specs.declared.draft.Draft.{Draft};
    ghost use Rattle.lfs_store.specs.Seen.{StagedLog, files_of};

    ghost Staged = { StagedLog };

    ghost Draft = { Draft };

    ghost state = { λ s. files_of D.SectorDevice.state s };

    fn header(&mut self, number: FileNumber) -> Result<Option<Header>, LogFault> {
        Store::header(self, number)
    }

    fn block(
        &mut self,
        number: FileNumber,
        index: u32,
        out: &mut [u8; 512],
    ) -> Result<bool, LogFault> {
        Store::block(self, number, index, out)
    }

    fn read_at(
        &mut self,
        alloc: Global,
        number: FileNumber,
        from: u32,
        to: u32,
    ) -> Result<Vec<u8>, StoreFault> {
        Store::read_at(self, alloc, number, from, to)
    }

    fn create(&mut self, number: FileNumber, kind: Kind, form: u8) -> Result<(), StoreFault> {
        Store::create(self, number, kind, form)
    }

    fn create_link(&mut self, number: FileNumber, size: u32) -> Result<(), StoreFault> {
        Store::create_link(self, number, size)
    }

    fn set_links(
        &mut self,
        number: FileNumber,
        header: Header,
        links: u32,
    ) -> Result<(), StoreFault> {
        Store::set_links(self, number, header, links)
    }

    fn remove(&mut self, number: FileNumber) -> Result<(), LogFault> {
        Store::remove(self, number)
    }

    fn write_at(
        &mut self,
        number: FileNumber,
        header: Header,
        at: u32,
        bytes: &[u8],
    ) -> Result<(), StoreFault> {
        Store::write_at(self, number, header, at, bytes)
    }

    fn reform(
        &mut self,
        number: FileNumber,
        header: Header,
        form: u8,
        size: u32,
    ) -> Result<(), StoreFault> {
        Store::reform(self, number, header, form, size)
    }

    fn set_len(&mut self, number: FileNumber, header: Header, len: u32) -> Result<(), StoreFault> {
        Store::set_len(self, number, header, len)
    }

    fn shrink(&mut self, number: FileNumber, header: Header, len: u32) -> Result<(), StoreFault> {
        Store::shrink(self, number, header, len)
    }

    ghost lawful = { λ s. D.SectorDevice.lawful s.log.device };
}
