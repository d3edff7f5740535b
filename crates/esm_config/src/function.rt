// The function of a mapping, by its plain name or its ARN.
ghost use Rattle.std.specs.Prelude.{◌≡◌, option_map};
ghost use Rattle.esm_config.specs.Fields.{function_in, named_by};
ghost use Rattle.esm_config.specs.FunctionParts.{named_of};
ghost use Rattle.esm_config.specs.View.{data_of};

use crate::arn::is_function_name;
use crate::owned::function_arn_of;
use serde_json::Value;

/// The function of a mapping.
#[derive(Clone, Copy, Debug)]
pub struct FunctionName<'a> {
    /// The plain name.
    pub name: &'a str,
    /// The ARN, if the mapping gives it.
    pub arn: Option<&'a str>,
}

/// The function that the text names by a plain name or by its ARN; `None` where it names none.
fn named_by(text: &str) -> Option<FunctionName<'_>>
    ensures { option_map named_of result ≡ named_by text.entry.now }
{
    if is_function_name(text.as_bytes()) {
        return Some(FunctionName {
            name: text,
            arn: None,
        });
    }
    match function_arn_of(text) {
        Some(parts) => Some(FunctionName {
            name: parts.name,
            arn: Some(text),
        }),
        None => None,
    }
}

/// The function that the mapping calls; `None` where the field is absent or names none.
pub fn function_in(field: Option<&Value>) -> Option<FunctionName<'_>>
    ensures { option_map named_of result ≡ function_in (data_of field.entry) }
{
    match field {
        Some(found) => match found.as_str() {
            Some(text) => named_by(text),
            None => None,
        },
        None => None,
    }
}
