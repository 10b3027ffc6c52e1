// What nobody can know of files.
ghost use Rattle.lfs_device.specs.Fate.{Fates, fate_of};

/// A world has a fate for each file: what it holds as it is opened, what a stop would leave of
/// that, and which sectors are of one unit. The file is known by what the system tells of it then,
/// and by its number of sectors.
///
/// No code can read a fate. What is proved over `W: World` holds for each choice of fates, and so
/// for one in which the file that is opened has the fate that it really has.
pub trait World {
    ghost fate: { Fates };
}

/// The world that a program names. Nothing is said of its fates.
pub struct ThisWorld;

impl World for ThisWorld {
    ghost fate = { fate_of };
}
