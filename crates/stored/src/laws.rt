// What holds of the pixels of every page.
ghost use Rattle.stored.specs.Reads.{PixelsRead, PagesWhole, PixelsLocal};

// The theorem that pixels stand in the bytes of a file as the format says, case by case.
pub fn pixels_stand_in_bytes()
    ensures { PixelsRead }
{}

// The theorem that an accepted page is within the limits, has a sound picture, and has the bytes of each pixel in the file.
pub fn accepted_pages_are_whole()
    ensures { PagesWhole }
{}

// The theorem that the picture of an accepted page depends on the bytes of its extents alone.
pub fn pixels_are_local()
    ensures { PixelsLocal }
{}
