//! The values of options.

use super::form::{host, local_ip};
use super::table::OptionRow;
use clap::ArgMatches;
use oca_script::field::peer;
use oca_types::Peer;

impl OptionRow {
    ghost use Rattle.std.specs.Prelude.{IfSome};
    ghost use Rattle.oca_program.specs.Options.{IsInForm};

    /// Returns the number that the command line `words` gives for this option. The result is `None` if the command line
    /// does not have the option, or the text does not have the form, or the form is not one of numbers.
    pub fn number(&self, words: &ArgMatches<'_>) -> Option<u64>
        ensures within { IfSome result (IsInForm self.now.form) }
    {
        self.form.number(self.text(words)?.as_bytes())
    }

    /// Returns the address of this machine that the command line `words` gives for this option, as a number with the
    /// first byte highest. It is 0.0.0.0, or from 1.0.0.0 to 223.255.255.255. The result is `None` if the command line
    /// does not have the option, or the text is not such an address.
    pub fn local_ip(&self, words: &ArgMatches<'_>) -> Option<u32> {
        local_ip(self.text(words)?.as_bytes())
    }

    /// Returns the peer that the command line `words` gives for this option as `a.b.c.d:port`. The four numbers are
    /// from 0 to 255, and the port is from 0 to 65535. The result is `None` if the command line does not have the
    /// option, or the text does not have this form.
    pub fn peer(&self, words: &ArgMatches<'_>) -> Option<Peer> {
        peer(self.text(words)?.as_bytes())
    }

    /// Returns the device that the command line `words` gives for this option as `a.b.c.d:port`. The address is from
    /// 1.0.0.0 to 223.255.255.255, and the port is from 1 to 65535. The result is `None` if the command line does not
    /// have the option, or the text does not have this form.
    pub fn host(&self, words: &ArgMatches<'_>) -> Option<Peer> {
        host(self.text(words)?.as_bytes())
    }

    /// Returns the text that the command line `words` gives for this option, if it does. The form is not checked.
    pub fn text<'a>(&self, words: &ArgMatches<'a>) -> Option<&'a str> {
        words.get_str(self.name)
    }

    /// Returns whether the command line `words` has this flag, an option without a value.
    pub fn is_set(&self, words: &ArgMatches<'_>) -> bool {
        self.text(words) == Some("true")
    }
}
