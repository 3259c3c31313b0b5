//! The exporter that a word tells of a file.

ghost use Rattle.std.specs.Net.Grammar.{IsIpText};
ghost use Rattle.exporter_names.specs.Cuts.{CutsAtLast};
ghost use Rattle.exporter_names.specs.Finding.{Finds};
ghost use Rattle.exporter_names.specs.ToldExporters.{IsToldExporter, sign};

use std::net::IpAddr;

/// The exporter that is told of a file.
#[derive(Clone, Copy)]
pub struct ToldExporter<'a> {
    /// The file's name, as it is given.
    pub file: &'a str,
    pub address: IpAddr,
}

impl<'a> ToldExporter<'a> {
    /// What a word FILE=ADDRESS says, which is cut at the last `=`, or `None` if an IPv4 or IPv6 address doesn't follow.
    pub fn parse(word: &'a str) -> Option<Self>
        ensures { Finds (IsToldExporter word.now) result }
    {
        let (file, text) = cut_at_last(word)?;
        let address = address_in(text)?;
        Some(ToldExporter { file, address })
    }
}

// What stands before and after the last `=`.
fn cut_at_last(word: &str) -> Option<(&str, &str)>
    ensures { CutsAtLast sign word.now result }
{
    word.rsplit_once('=')
}

// The address that a text is.
fn address_in(text: &str) -> Option<IpAddr>
    ensures { Finds (IsIpText text.now) result }
{
    match text.parse::<IpAddr>() {
        Ok(address) => Some(address),
        Err(_) => None,
    }
}
