// What holds of all CIF texts.

ghost use Rattle.cif_read.specs.OneReading.{TextsHaveOneReading};
ghost use Rattle.cif_read.specs.WrittenChips.{WrittenChipsAreRead};

use cif_drawing::polygons_have_one_list;
use cif_syntax::sentences_are_apart;
use cif_write::chip_texts_draw;

/// A CIF text is of one drawing at most, is refused once at most, and is never both.
pub fn texts_have_one_reading()
    ensures { TextsHaveOneReading }
{
    sentences_are_apart();
    polygons_have_one_list();
}

/// What `write_cif` writes of a chip within reach is never refused, and what is read of it has the chip's boxes and labels.
pub fn written_chips_are_read()
    ensures { WrittenChipsAreRead }
{
    texts_have_one_reading();
    chip_texts_draw();
}
