//! Laws of trees that are packed into a set, and of what that set is unpacked into.
ghost use Rattle.std.specs.Prelude.{◌≡◌, ◌<◌, ◌^◌, ◌++◌, ◌∷◌, ℕ, [], List, None, Ok, Some, true};
ghost use Rattle.mb_tree.specs.Common.{begun, contains_key, empty, retain_keys, slash, State, state_of, Tables};
ghost use Rattle.mb_tree.specs.Base.{base_of};
ghost use Rattle.mb_tree.specs.Files.{Files, paths_of, written};
ghost use Rattle.mb_tree.specs.Packed.{IsPacked};
ghost use Rattle.mb_tree.specs.Packing.{first_format};
ghost use Rattle.mb_tree.specs.RoundTrip.{HasNoTiles, HasTileFiles, IsPlain, files_under, is_tile, plain_files, plain_path};
ghost use Rattle.mb_tree.specs.TilePath.{tile_path};
ghost use Rattle.mb_tree.specs.Unpacked.{files_of, path_text, unpacked, unpacking};
ghost use Rattle.mb_tree.specs.declared.format.FileFormat.{FileFormat};
ghost use Rattle.mb_tree.specs.declared.scheme.TileScheme.{TileScheme};

/// What `unpack` does with tables after `pack` of a tree with a tile, under the same scheme. It isn't refused. Its
/// files are those of the tiles that were there before, under the extension of the tree's format, and those of the
/// tree's tiles, each under its plain path and with its bytes. Under another scheme the rows in all these paths are
/// counted from the other edge.
pub fn packed_is_unpacked()
    ensures answer { (scheme : TileScheme) (tree : Files) (old new : Tables) (format : FileFormat)
        → IsPacked scheme true tree old new → first_format (paths_of tree) ≡ Some format
        → begun unpacking new ≡ Ok tt }
    ensures files { (scheme : TileScheme) (tree into : Files) (old new : Tables) (base : State)
        (format : FileFormat)
        → IsPacked scheme true tree old new → base_of old ≡ Ok base
        → first_format (paths_of tree) ≡ Some format
        → written into (unpacked scheme (state_of new))
        ≡ written (written into (files_of scheme format base.tiles)) (plain_files tree) }
    ensures under { (scheme other : TileScheme) (tree into : Files) (old new : Tables)
        (base : State) (format : FileFormat)
        → IsPacked scheme true tree old new → base_of old ≡ Ok base
        → first_format (paths_of tree) ≡ Some format
        → written into (unpacked other (state_of new))
        ≡ written (written into (files_of other format base.tiles))
        (files_under scheme other tree) }
{}

/// The same of a tree without a tile: the answer and the files are those of the set before, under any scheme.
pub fn no_tile_is_unpacked()
    ensures answer { (scheme : TileScheme) (tree : Files) (old new : Tables) (base : State)
        → IsPacked scheme true tree old new → base_of old ≡ Ok base
        → first_format (paths_of tree) ≡ None
        → begun unpacking new ≡ unpacking base }
    ensures files { (scheme other : TileScheme) (tree : Files) (old new : Tables) (base : State)
        → IsPacked scheme true tree old new → base_of old ≡ Ok base
        → first_format (paths_of tree) ≡ None
        → unpacked other (state_of new) ≡ unpacked other (Ok base) }
{}

/// A tree that is packed into tables without tiles, and unpacked into an empty tree under the same scheme, comes back:
/// the file of each tile under its plain path, with its bytes, and no other file. Where the paths of tiles are plain
/// already, these are the tree's own files. Tables that describe nothing have no tiles.
pub fn unpacked_as_it_was()
    ensures tree { (scheme : TileScheme) (tree : Files) (old new : Tables)
        → IsPacked scheme true tree old new → HasNoTiles old
        → HasTileFiles tree (written empty (unpacked scheme (state_of new))) }
    ensures same { (scheme : TileScheme) (tree : Files) (old new : Tables)
        → IsPacked scheme true tree old new → HasNoTiles old
        → ((path : List ℕ) → contains_key tree path ≡ true → IsPlain path)
        → written empty (unpacked scheme (state_of new)) ≡ retain_keys tree is_tile }
    ensures nothing { (old : Tables) → old.descriptions ≡ [] → HasNoTiles old }
{}

/// A path as `unpack` writes it is read as the tile that it was made of, and is its own plain path; whatever folder it
/// is put into, its last three parts are its plain path.
pub fn paths_are_plain()
    ensures read { (format : FileFormat) (zoom column row : ℕ)
        → zoom < 2 ^ 8 → column < 2 ^ 32 → row < 2 ^ 32
        → tile_path (path_text format zoom column row)
        ≡ Some (record { zoom = zoom; column = column; row = row; format = Some format }) }
    ensures plain { (format : FileFormat) (zoom column row : ℕ)
        → zoom < 2 ^ 8 → column < 2 ^ 32 → row < 2 ^ 32
        → plain_path (path_text format zoom column row)
        ≡ Some (path_text format zoom column row) }
    ensures behind { (folder : List ℕ) (format : FileFormat) (zoom column row : ℕ)
        → zoom < 2 ^ 8 → column < 2 ^ 32 → row < 2 ^ 32
        → plain_path (folder ++ slash ∷ path_text format zoom column row)
        ≡ Some (path_text format zoom column row) }
{}
