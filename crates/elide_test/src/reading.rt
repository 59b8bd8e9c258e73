//! Files that are read whole, with a refusal that is a [`Stop`]: files with tests, and the one of `--list`.

ghost use Rattle.std.specs.Prelude.{IfOk};
ghost use Rattle.elide_program.specs.Files.{Gives, most_bytes};

use crate::shared::SharedPaths;
use crate::stop::Stop;
use elide_program::MOST_BYTES;

/// The content of a file, of at most 640 MiB.
pub fn read<S: SharedPaths>(path: &str, paths: &S) -> Result<Vec<u8>, Stop>
    ensures { IfOk result (λ bytes. Gives (S.holds paths.now path.now) most_bytes bytes.items) }
{
    match paths.read_shared(path, MOST_BYTES) {
        Ok(bytes) => Ok(bytes),
        Err(fault) => Err(Stop::Unread(fault)),
    }
}
