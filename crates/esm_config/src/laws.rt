//! A law of every configuration, as the contract of a function that does nothing.
ghost use Rattle.std.specs.Prelude.{◌≡◌, Some};
ghost use Rattle.serde_json.specs.Data.{Data};
ghost use Rattle.serde_json.specs.Read.{read};
ghost use Rattle.esm_model.specs.declared.config.Config.{Config};
ghost use Rattle.esm_config.specs.Given.{IsGiven};
ghost use Rattle.esm_config.specs.Mapping.{config_of};
ghost use Rattle.esm_config.specs.Text.{config_text};

/// The text of a configuration that `read` or `merge` returned reads as JSON, which gives the same configuration.
pub fn text_is_read()
    ensures { (c : Config) → IsGiven c → (d : Data) × (read (config_text c) ≡ Some d) × (config_of d ≡ Some c) }
{}
