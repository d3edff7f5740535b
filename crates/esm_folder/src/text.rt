// The text that `init` prints.
ghost use Rattle.std.specs.Prelude.{◌≡◌, IfOk};
ghost use Rattle.esm_folder.specs.Text.{init_text};

use crate::files::InitEnd;
use esm_model::OutOfMemory;
use std::alloc::Global;

/// What `init` prints.
pub fn init_text(alloc: Global, end: InitEnd) -> Result<Vec<u8>, OutOfMemory>
    ensures { IfOk result (λ text. text.items ≡ init_text end) }
{
    let text = match end {
        InitEnd::Done => String::from_str(alloc, "done\n")?,
        InitEnd::NotEmpty { file, size } => {
            let name = file.name();
            format!(in alloc; "not empty {name} {size}\n")?
        }
        InitEnd::DiskFault => String::from_str(alloc, "disk fault\n")?,
    };
    Ok(text.into_bytes())
}
