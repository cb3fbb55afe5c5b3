//! The values that words give for options.
ghost use Rattle.std.specs.Prelude.{◌≡◌, option_map};
ghost use Rattle.command_words.specs.Values.{value_of, given_value};

use clap::ArgMatches;
use command_line::OptionName;

/// The value of an option, or its default, or None if it has neither.
pub fn optional<'a>(matches: &ArgMatches<'a>, option: OptionName) -> Option<&'a str>
    ensures { option_map (λ text. text.now) result ≡ value_of matches.now option }
{
    let name = option.name();
    matches.get_str(name)
}

/// The value of an option that is required or has a default. It is empty if the option has no value, for example if the command
/// does not have it.
pub fn given<'a>(matches: &ArgMatches<'a>, option: OptionName) -> &'a str
    ensures { result.now ≡ given_value matches.now option }
{
    match optional(matches, option) {
        Some(text) => text,
        None => "",
    }
}
