//! The disc as a picture, and what its marks mean. Each function appends to a text; if memory runs out, a part may be appended.

ghost use Rattle.std.specs.Prelude.{◌≡◌, ◌++◌, ◌^◌, ◌≤◌, OnOk, length};
ghost use Rattle.std.specs.String.{string_bytes};
ghost use Rattle.udfs_page.specs.Pictures.{legend_text, picture_front, picture_html};

use crate::disc_arcs::Mark;
use crate::markups::push_markup;
use crate::spiral::push_spiral;
use udfs_osta::OutOfMemory;

/// What comes before the arcs.
fn push_picture_front(text: &mut String) -> Result<(), OutOfMemory>
    ensures { OnOk result (string_bytes text.new ≡ string_bytes text.old ++ (picture_front)) }
{
    push_markup(text, "<h2>The disc</h2>\n<figure>\n")?;
    push_markup(
        text,
        "<svg viewBox='-5950 -5950 11900 11900' role=img aria-label='The blocks of the disc in a spiral, the first ones inside'>\n",
    )
}

/// What the marks mean.
fn push_legend(text: &mut String) -> Result<(), OutOfMemory>
    ensures { OnOk result (string_bytes text.new ≡ string_bytes text.old ++ (legend_text)) }
{
    push_markup(
        text,
        "<figcaption>The blocks of the disc, from the first ones inside to the last ones outside. The angle means nothing: a scratch across the disc does not show as a line. Each stretch shows the worst of its blocks:\n<ul>\n",
    )?;
    push_markup(
        text,
        "<li><svg viewBox='0 0 300 132'><path class=k d='M0 66h300'/></svg>known</li>\n",
    )?;
    push_markup(
        text,
        "<li><svg viewBox='0 0 300 132'><path class=n d='M0 66h300'/></svg>not known, and not needed</li>\n",
    )?;
    push_markup(
        text,
        "<li><svg viewBox='0 0 300 132'><path class=m d='M0 66h300'/></svg>needed: read it again</li>\n",
    )?;
    push_markup(
        text,
        "<li><svg viewBox='0 0 300 132'><path class=c d='M0 66h300'/></svg>in conflict: readings differ</li>\n",
    )?;
    push_markup(text, "</ul></figcaption>\n")
}

/// The picture of a disc with `blocks` blocks, and what its marks mean.
pub(crate) fn push_picture(
    text: &mut String,
    marks: &[Mark],
    blocks: u64,
) -> Result<(), OutOfMemory>
    requires few { length marks.now ≤ 2000 }
    requires blocks { blocks ≤ 2 ^ 32 }
    ensures { OnOk result (string_bytes text.new ≡ string_bytes text.old ++ picture_html marks.now blocks) }
{
    push_picture_front(text)?;
    push_spiral(text, marks, blocks)?;
    push_markup(text, "</svg>\n")?;
    push_legend(text)?;
    push_markup(text, "</figure>\n")
}
