//! Which merge driver a path has.

ghost use Rattle.std.specs.Prelude.{◌≡◌, IfOk};
ghost use Rattle.std.specs.Option.{option_map};
ghost use Rattle.content_merge.specs.Drivers.{driver_of, is_built_in as is_built_in_name, template_named as template_of_name, template_of};

use attr_rules::{MergeAttr, Rules, merge_attr};
use config_text::Config;
use seq_base::Path;
use std::alloc::{AllocError, Global};

fn is_built_in(name: &[u8]) -> bool
    ensures { result ≡ is_built_in_name name.now }
{
    name == b"text".as_slice() || name == b"binary".as_slice() || name == b"union".as_slice()
}

fn template_named(config: &Config, name: &[u8]) -> Result<Option<Vec<u8>>, AllocError>
    ensures { IfOk result (λ found. option_map (λ v. v.items) found ≡ template_of_name config.now name.now) }
{
    if is_built_in(name) {
        return Ok(None);
    }
    config.get(b"merge", name, b"driver")
}

/// The template of the command line of a path's driver, if one is run, by the path's attribute `merge` (gitattributes(5),
/// "Performing a three-way merge"). Unspecified it is the driver that `merge.default` names, and with a value the one of that name.
/// Git's own drivers `text`, `binary` and `union` are not run, nor is one without `merge.<name>.driver`.
pub fn driver_template(
    config: &Config,
    attribute: &MergeAttr,
) -> Result<Option<Vec<u8>>, AllocError>
    ensures { IfOk result (λ found. option_map (λ v. v.items) found ≡ template_of config.now attribute.now) }
{
    match attribute {
        MergeAttr::Unspecified => match config.get(b"merge", b"", b"default")? {
            Some(name) => template_named(config, &name),
            None => Ok(None),
        },
        MergeAttr::Set => Ok(None),
        MergeAttr::Unset => Ok(None),
        MergeAttr::Named(name) => template_named(config, name.as_slice()),
    }
}

/// That of a path under rule files, the strongest first.
#[tactic(auto, unfolding(crate::specs::Drivers::driver_of))]
pub fn path_driver(
    alloc: Global,
    config: &Config,
    files: &[Rules],
    path: &Path,
) -> Result<Option<Vec<u8>>, AllocError>
    ensures { IfOk result (λ found. option_map (λ v. v.items) found ≡ driver_of config.now files.now path.now) }
{
    let attribute = merge_attr(alloc, files, path)?;
    driver_template(config, &attribute)
}
