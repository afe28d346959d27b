// Where the parts of an archive lie.
ghost use Rattle.std.specs.Prelude.{◌≡◌, ◌<◌, ◌+◌, ◌^◌, length};
ghost use Rattle.pm_writer.specs.Places.{header_with, places_with};

use crate::cutting::Directories;
use crate::settings::Settings;
use pm_format::Header;

/// Where the parts of a finished archive lie, and what it counts. Places and lengths are in bytes.
#[derive(Clone, Copy, Debug, PartialEq, Eq)]
pub struct ArchivePlaces {
    /// How long the archive is.
    pub length: u64,
    /// How long the root directory at 127 is.
    pub root_length: u64,
    /// Where the directories below the root begin, 0 where there are none.
    pub leaf_offset: u64,
    /// How long the directories below the root are together.
    pub leaf_length: u64,
    /// How many directories below the root have tile entries.
    pub leaves: u64,
    /// How many upper directories there are: those between the root and these.
    pub uppers: u64,
    /// Where the contents of tiles begin.
    pub data_offset: u64,
    /// How long the contents of tiles are together.
    pub data_length: u64,
    /// How many ids have a tile.
    pub addressed: u64,
    /// How many tile entries the directories have.
    pub entries: u64,
    /// How many different contents there are.
    pub contents: u64,
}

impl ArchivePlaces {
    /// Those of directories behind contents, with the counts of tiles, entries and contents.
    pub(crate) fn of(
        directories: &Directories,
        data_offset: u64,
        data_length: u64,
        addressed: u64,
        entries: u64,
        contents: u64,
    ) -> ArchivePlaces
        requires { data_offset + data_length + length directories.now.below.items < 2 ^ 64 }
        ensures { result ≡ places_with directories.now data_offset data_length addressed entries
            contents }
    {
        let end = data_offset + data_length;
        let leaf_length = directories.below.len() as u64;
        ArchivePlaces {
            length: end + leaf_length,
            root_length: directories.root.len() as u64,
            leaf_offset: if directories.leaves == 0 { 0 } else { end },
            leaf_length,
            leaves: directories.leaves,
            uppers: directories.uppers,
            data_offset,
            data_length,
            addressed,
            entries,
            contents,
        }
    }

    /// The header with these places, and with settings.
    pub(crate) fn header(&self, settings: Settings, metadata_length: u64, clustered: bool) -> Header
        ensures { result ≡ header_with settings self.now metadata_length clustered }
    {
        Header {
            root_length: self.root_length,
            metadata_length,
            leaf_offset: self.leaf_offset,
            leaf_length: self.leaf_length,
            data_offset: self.data_offset,
            data_length: self.data_length,
            n_addressed_tiles: self.addressed,
            n_tile_entries: self.entries,
            n_tile_contents: self.contents,
            clustered,
            min_zoom: settings.min_zoom,
            max_zoom: settings.max_zoom,
            min_longitude: settings.min_longitude,
            min_latitude: settings.min_latitude,
            max_longitude: settings.max_longitude,
            max_latitude: settings.max_latitude,
            center_zoom: settings.center_zoom,
            center_longitude: settings.center_longitude,
            center_latitude: settings.center_latitude,
            ..Header::new(settings.tile_compression, settings.tile_type)
        }
    }
}
