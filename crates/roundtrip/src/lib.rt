// Bytes that hold the block of a picture open as that picture.
#![tactic(auto)]

ghost use Rattle.roundtrip.specs.Laws.{PageRoundTrip, RoundTrip, FileOpens};

// The theorem that bytes which hold the block of a picture have its page, whatever their header, and that with the header
// which links to it they open as the picture.
pub fn block_opens_as_its_picture()
    ensures page { PageRoundTrip }
    ensures file { RoundTrip }
    ensures smallest { FileOpens }
{}
