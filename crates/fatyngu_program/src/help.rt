// The texts of the subcommands. The first line of each says its words.
use tile_command::Subcommand;

const SHOW: &str = "usage: fatyngu show FILE [--metadata | --tilejson [--url URL] | --entries]

Prints what the header of an archive (.pmtiles) says, a line for each thing; of
a set (.mbtiles) the same as fatyngu summary. Bounds are west, south, east and
north; a center has its zoom behind it; a count of 0 isn't said.

--metadata  prints the metadata of the archive as it is
--tilejson  prints the TileJSON of the archive; its metadata may have no number
            that isn't whole
--url URL   an address of its tiles, for the TileJSON
--entries   prints its tile entries, a line each: the id, z/x/y, run length,
            offset and length
";

const TILE: &str = "usage: fatyngu tile FILE Z X Y

Writes the bytes of a tile of an archive or a set to standard output, as they
are stored. Rows are counted from the top. Status 1 where there is no such tile.
";

const SUMMARY: &str = "usage: fatyngu summary SET

Prints the layout of a set, and for each zoom and all of them how many tiles
there are, their bytes, and the bytes of the least and the greatest tile.
";

const VALIDATE: &str = "usage: fatyngu validate SET [--agg-hash verify | update | off]

Tests the rows of a set and the digests that are stored with its tiles, and then
its hash of all tiles: it has to be stored and right, which is verify and holds
where nothing is said; it is stored anew; or it isn't looked at.
";

const HASH: &str = "usage: fatyngu hash SET [--update]

Prints the hash of all tiles of a set.

--update  stores it in the metadata too, as agg_tiles_hash
";

const SERVE: &str = "usage: fatyngu serve FILE [DIRECTORIES ENTRIES TILES BYTES]

Reads requests for tiles of an archive from standard input, a line each, and
writes the reply to each line before it reads the next one. It ends with the
input. At most DIRECTORIES directories of ENTRIES entries together and TILES
tiles of BYTES bytes together are held in memory: 64, 1000000, 4096 and
268435456 where nothing is said.

GET Z X Y       asks for a tile
GET Z X Y TAG   asks for a tile that isn't the one of a tag: 16 digits, 0 to 9
                and A to F
200 TAG HEX     the tile: the XXH3 digest of its bytes as the tag, and the
                bytes in hexadecimal
304 TAG         the tile is the one of the tag
400             the line is no request
404             there is no such tile
500 InvalidEntry, 500 PastEnd
                the archive is broken on the way to the tile

status: 0 all is answered, 1 refused, 2 no command, 4 the input can't be read,
5 the output can't be written, 6 the file can't be opened or read, 7 out of
memory
";

const META_GET: &str = "usage: fatyngu meta get SET NAME

Prints the text under a name of the metadata. Status 1 where there is none.
";

const META_SET: &str = "usage: fatyngu meta set SET NAME [VALUE]

Puts a text under a name of the metadata, or removes the name where no text is
given. Words behind -- may begin with dashes.
";

const META_ALL: &str = "usage: fatyngu meta all SET

Prints the metadata as an object of JSON: each name with its text, or null.
";

const COPY: &str = "usage: fatyngu copy SRC DST [OPTIONS]

Copies a set into a new file, or into one that is there.

--copy all | tiles | metadata                  what is copied
--mbtiles-type flat | flat-with-hash | normalized | cache
                                               the layout of a new DST
--on-duplicate override | ignore | abort       copies into a DST that is there,
             and says what counts where both have a tile or a name
--min-zoom Z, --max-zoom Z, --zoom-levels Z,.. the zooms that are copied
--box 'XMIN YMIN XMAX YMAX'   copies the tiles whose lower left corner lies in a
             box of columns and rows of zoom 30, as the program mbtiles does
--hash-algorithm md5 | fnv1a | fnv1a-decimal | xxh64 | xxh3
                                               the digests of a new DST
--skip-agg-tiles-hash                          stores no hash of all tiles
--validate   refuses an SRC whose stored hash of all tiles isn't there or wrong
--apply-patch PATCH   copies what PATCH makes of SRC into a new DST, where the
             hashes of SRC and of the copy are those that PATCH says
--force      takes PATCH whatever hashes it and SRC have
";

const PATCH: &str = "usage: fatyngu patch BASE PATCH [--force]

Puts a patch on a set, in the set's file.

--force  takes the patch whatever hashes it and the set have
";

const PACK: &str = "usage: fatyngu pack FOLDER OUT [--scheme xyz | tms]

Makes a set of the files z/x/y.extension in a folder. Other files are passed
over. Rows are counted from the top, but with tms.
";

const UNPACK: &str = "usage: fatyngu unpack SET FOLDER [--scheme xyz | tms]

Writes the tiles of a set into files z/x/y.extension in a folder that is new or
empty. Rows are counted from the top, but with tms.
";

const EXTRACT: &str = "usage: fatyngu extract IN.pmtiles OUT.pmtiles BOX .. [OPTIONS]

Writes the archive of the tiles that an archive has in boxes. A BOX is one word
of five numbers parted by spaces, 'Z XMIN YMIN XMAX YMAX': a zoom from 0 to 30,
the least column and row, and the greatest ones. Rows are counted from the top.
Boxes of zooms that IN doesn't say are left out; there may be 4000 boxes. OUT is
written beside its place, as OUT.new, and put there once it is whole. It has the
metadata of IN, and the zooms of its boxes.

--overwrite    replaces OUT where it is there; without it that is refused
--max-tiles N  how many tiles OUT may have, 10000000 where nothing is said
";

const JOIN: &str = "usage: fatyngu join IN.pmtiles .. OUT.pmtiles [--overwrite] [--max-tiles N]

Writes the archive of the tiles of several archives. Where two have a tile, the
later one counts, so that an archive of changes comes behind the one that it is
for. All have to have tiles of one type and one compression. OUT says the zooms
and the bounds of all of them, and the center and the metadata of the last. It
is written beside its place, as OUT.new, and put there once it is whole. Memory
holds the entries of the archives, and one content at a time. There may be 1000.

--overwrite    replaces OUT where it is there; without it that is refused
--max-tiles N  how many tiles OUT may have, 10000000 where nothing is said
";

const HEADER: &str = "usage: fatyngu_program header IN.pmtiles

Tests what the header of an archive says, as fatyngu verify does behind
tile_verify: how many ids have a tile, how many tile entries and how many
different contents there are, where the header doesn't say 0; the least and the
greatest zoom of the tiles; that contents lie in the order of ids, where it says
so; and that the metadata is an object of JSON. Where all of it is so nothing is
printed; else a line says what the header states, and what was found.
";

/// The text of a subcommand.
pub fn help_of(subcommand: Subcommand) -> &'static str {
    match subcommand {
        Subcommand::Show => SHOW,
        Subcommand::Tile => TILE,
        Subcommand::Summary => SUMMARY,
        Subcommand::Validate => VALIDATE,
        Subcommand::Hash => HASH,
        Subcommand::Serve => SERVE,
        Subcommand::MetaGet => META_GET,
        Subcommand::MetaSet => META_SET,
        Subcommand::MetaAll => META_ALL,
        Subcommand::Copy => COPY,
        Subcommand::Patch => PATCH,
        Subcommand::Pack => PACK,
        Subcommand::Unpack => UNPACK,
        Subcommand::Extract => EXTRACT,
        Subcommand::Join => JOIN,
        Subcommand::Header => HEADER,
    }
}

/// The line that says the words of a subcommand.
pub fn usage_of(subcommand: Subcommand) -> &'static str {
    let text = help_of(subcommand);
    match text.split_once("\n") {
        Some((line, _)) => line,
        None => text,
    }
}
