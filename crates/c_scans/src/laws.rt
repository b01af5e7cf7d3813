// What holds of every text.
ghost use Rattle.c_scans.specs.Scans.{EachIsScanned};

/// A text is a list of tokens up to its end, or up to what is refused in it.
pub fn every_text_is_scanned()
    ensures { EachIsScanned }
{}
