//! Laws of documents that are put into the metadata of a set: what is read of them.
ghost use Rattle.std.specs.Prelude.{◌≡◌, ◌<◌, ℕ, List, None, Ok, Some, codes, false};
ghost use Rattle.mb_metadata.specs.Common.{get, State, state_of, Tables, TileJson};
ghost use Rattle.mb_metadata.specs.Clamping.{maxzoom_within, minzoom_within};
ghost use Rattle.mb_metadata.specs.Inserting.{insert_edits};
ghost use Rattle.mb_metadata.specs.NameEdits.{EditsNames, state_edited};
ghost use Rattle.mb_metadata.specs.Others.{has_field, others_said};
ghost use Rattle.mb_metadata.specs.ReadBack.{AreBoundsRead, IsCenterRead, IsOtherRead, IsReadAt, document_after, said_after};
ghost use Rattle.mb_metadata.specs.Zooms.{span, zooms_of};

/// After `insert_metadata` of a document `get_metadata` reads each of its texts as it was put, whatever `other` has
/// under the name of the field. An empty text is read as none. Without a text a field is read from the entry of its
/// name in `other`, and where there is none, as before.
pub fn texts_are_read_back()
    ensures name { (id : List ℕ) (s : State) (t : TileJson)
        → IsReadAt s t (codes "name") t.name (document_after id s t).name }
    ensures version { (id : List ℕ) (s : State) (t : TileJson)
        → IsReadAt s t (codes "version") t.version (document_after id s t).version }
    ensures description { (id : List ℕ) (s : State) (t : TileJson)
        → IsReadAt s t (codes "description") t.description (document_after id s t).description }
    ensures attribution { (id : List ℕ) (s : State) (t : TileJson)
        → IsReadAt s t (codes "attribution") t.attribution (document_after id s t).attribution }
    ensures legend { (id : List ℕ) (s : State) (t : TileJson)
        → IsReadAt s t (codes "legend") t.legend (document_after id s t).legend }
    ensures template { (id : List ℕ) (s : State) (t : TileJson)
        → IsReadAt s t (codes "template") t.template (document_after id s t).template }
{}

/// The same of bounds and center, which are read as the texts that stand for them: a text as it was put, whole numbers
/// as these numbers parted by commas.
pub fn extents_are_read_as_texts()
    ensures bounds { (id : List ℕ) (s : State) (t : TileJson)
        → AreBoundsRead s t (document_after id s t).bounds }
    ensures center { (id : List ℕ) (s : State) (t : TileJson)
        → IsCenterRead s t (document_after id s t).center }
{}

/// Both zooms of a document are read as they were put, and then set by those of the tiles, as those of any set.
pub fn zooms_are_read_back()
    ensures minzoom { (id : List ℕ) (s : State) (t : TileJson) (p q : ℕ)
        → t.minzoom ≡ Some p → t.maxzoom ≡ Some q → p < 256 → q < 256
        → (document_after id s t).minzoom
        ≡ minzoom_within (span (zooms_of s.tiles)) (Some p) (Some q) }
    ensures maxzoom { (id : List ℕ) (s : State) (t : TileJson) (p q : ℕ)
        → t.minzoom ≡ Some p → t.maxzoom ≡ Some q → p < 256 → q < 256
        → (document_after id s t).maxzoom
        ≡ maxzoom_within (span (zooms_of s.tiles)) (Some p) (Some q) }
{}

/// What `other` has under a name without a field is read there again: a text as it was put, another value as
/// the text of its compact JSON. Other names are read as before. `type` and `agg_tiles_hash` fill their
/// fields beside the document.
pub fn others_are_read_back()
    ensures other { (id : List ℕ) (s : State) (t : TileJson) (name : List ℕ)
        → has_field name ≡ false
        → IsOtherRead (get t.other name) (get (others_said s.metadata) name)
        (get (document_after id s t).other name) }
    ensures layer_type { (id : List ℕ) (s : State) (t : TileJson)
        → IsReadAt s t (codes "type") None (said_after id s t).layer_type }
    ensures agg_tiles_hash { (id : List ℕ) (s : State) (t : TileJson)
        → IsReadAt s t (codes "agg_tiles_hash") None (said_after id s t).agg_tiles_hash }
{}

/// The tables that `insert_metadata` leaves load again where `other` doesn't name `hash_algorithm`, as the set of
/// which the other laws speak.
pub fn inserted_tables_load()
    ensures { (t : TileJson) (old new : Tables) (s : State)
        → state_of old ≡ Ok s → EditsNames (insert_edits t) old new
        → get t.other (codes "hash_algorithm") ≡ None
        → state_of new ≡ Ok (state_edited s (insert_edits t s)) }
{}
