// What a device was told. Only clauses see it.
ghost use Rattle.std.specs.Prelude.{◌≡◌, ◌∷◌};
ghost use Rattle.lfs_device.specs.Told.{orders_of};
ghost use Rattle.lfs_model.specs.declared.Order.TheVariants as order;

use std::mem;
use std::snapshot::Snapshot;

/// The writes and syncs so far. The list is never kept: a `Snapshot` of it takes no memory.
#[derive(Drop)]
pub(crate) enum Told {
    Nothing,
    Wrote(u32, Snapshot<[u8; 512]>, Snapshot<Told>),
    Synced(Snapshot<Told>),
}

// It takes no memory.
const _: () = prove!(size_of::<Snapshot<Told>>() == 0);

pub(crate) fn tell_write(sector: u32, bytes: &[u8; 512], told: &mut Snapshot<Told>)
    ensures { orders_of told.new.value
        ≡ order.Write sector bytes.now ∷ orders_of told.old.value }
{
    let before = mem::replace(told, Snapshot::of(&Told::Nothing));
    *told = Snapshot::of(&Told::Wrote(sector, Snapshot::of(bytes), before));
}

pub(crate) fn tell_sync(told: &mut Snapshot<Told>)
    ensures { orders_of told.new.value ≡ order.Sync ∷ orders_of told.old.value }
{
    let before = mem::replace(told, Snapshot::of(&Told::Nothing));
    *told = Snapshot::of(&Told::Synced(before));
}
