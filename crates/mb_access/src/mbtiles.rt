// A set by the path of its file.
ghost use Rattle.std.specs.Prelude.{◌≡◌, IfErr, IfOk};
ghost use Rattle.mb_access.specs.FileName.{file_name};

use base_values::TextVal;
use mb_store::{MbtError, MbtResult};
use std::alloc::Global;
use std::fmt;
use std::marker::Model;
use std::path::Path;

/// A tile set by the path of its file. The calls on its tiles take the store that has them.
#[derive(Debug, Drop)]
pub struct Mbtiles {
    path: TextVal,
}

impl Model for Mbtiles {
    ghost use Rattle.std.specs.Prelude.{ℕ, List};

    ghost Value = { List ℕ };

    ghost view = { λ m. m.path };
}

impl fmt::Display for Mbtiles {
    ghost use Rattle.std.specs.Prelude.{Some};

    ghost output = { λ m. Some m };

    fn fmt<W: fmt::Write>(&self, f: &mut fmt::Formatter<W>) -> fmt::Result {
        let path = self.filepath();
        write!(f, "{path}")
    }
}

impl Mbtiles {
    /// The set of a path, which is kept as it is.
    pub fn new(alloc: Global, path: &str) -> MbtResult<Mbtiles>
        ensures path { IfOk result (λ set. set ≡ path.now) }
        ensures error { IfErr result (λ e. e ≡ MbtError.OutOfMemory) }
    {
        let path = TextVal::new(String::from_str(alloc, path)?);
        Ok(Mbtiles { path })
    }

    /// The whole path.
    pub fn filepath(&self) -> &str
        ensures { result.now ≡ self.now }
    {
        self.path.as_str()
    }

    /// The name of the file: what stands after the last `/`, up to its last `.` where that isn't first. An ending `/`
    /// or `/.` is cut before, as long as there is one. It is `unknown` where nothing, `.` or `..` stands there.
    pub fn filename(&self) -> &str
        ensures { result.now ≡ file_name self.now }
    {
        let path = Path::new(self.path.as_str());
        match path.file_stem() {
            Some(stem) => stem,
            None => "unknown",
        }
    }
}
