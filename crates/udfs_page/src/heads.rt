//! The head of the page. It contains its style, no script, and loads nothing from elsewhere. Each function appends to a text; if memory
//! runs out, a part may be appended.

ghost use Rattle.std.specs.Prelude.{◌≡◌, ◌++◌, OnOk, option_map};
ghost use Rattle.std.specs.String.{string_bytes};
ghost use Rattle.udfs_page.specs.Heads.{head_back, head_front, heading_html, style_base, style_picture, style_text, style_tree, titled_html};

use crate::escapes::push_html;
use crate::markups::push_markup;
use udfs_osta::OutOfMemory;

/// Colours, by day and by night, and headings.
fn push_style_base(text: &mut String) -> Result<(), OutOfMemory>
    ensures { OnOk result (string_bytes text.new ≡ string_bytes text.old ++ (style_base)) }
{
    push_markup(
        text,
        ":root{color-scheme:light dark;--k:#3f9b55;--n:#8c959f;--m:#cf222e;--c:#8250df;--l:#d0d7de;--s:#59636e}\n",
    )?;
    push_markup(
        text,
        "@media (prefers-color-scheme:dark){:root{--k:#3fa45b;--n:#6e7681;--m:#ff7b72;--c:#bc8cff;--l:#3d444d;--s:#9198a1}}\n",
    )?;
    push_markup(
        text,
        "body{max-width:60rem;margin:0 auto;padding:1rem;font:1rem/1.5 system-ui,sans-serif}\n",
    )?;
    push_markup(
        text,
        "h1{font-size:1.5rem;margin:.5rem 0}h2{font-size:1.15rem;margin:2rem 0 .5rem}\n",
    )
}

/// Lines, commands and tables.
fn push_style_text(text: &mut String) -> Result<(), OutOfMemory>
    ensures { OnOk result (string_bytes text.new ≡ string_bytes text.old ++ (style_text)) }
{
    push_markup(
        text,
        ".s div{font:.9rem/1.6 ui-monospace,monospace;white-space:pre-wrap;padding-left:11ch;text-indent:-11ch}\n",
    )?;
    push_markup(
        text,
        ".s div:first-child{font:600 1.1rem/1.6 system-ui,sans-serif;padding:0 0 .4rem;text-indent:0}\n",
    )?;
    push_markup(
        text,
        "pre{font:.85rem/1.6 ui-monospace,monospace;padding:.6rem .8rem;border:1px solid var(--l);white-space:pre-wrap;overflow-wrap:anywhere}\n",
    )?;
    push_markup(
        text,
        "table{border-collapse:collapse;width:100%}th,td{padding:.25rem 0 .25rem .8rem;text-align:right;vertical-align:top;white-space:nowrap;border-bottom:1px solid var(--l)}\n",
    )?;
    push_markup(
        text,
        "th:first-child,td:first-child{padding-left:0;text-align:left;white-space:normal}bdi{overflow-wrap:anywhere}\n",
    )
}

/// The four marks of the picture.
fn push_style_picture(text: &mut String) -> Result<(), OutOfMemory>
    ensures { OnOk result (string_bytes text.new ≡ string_bytes text.old ++ (style_picture)) }
{
    push_markup(
        text,
        "figure{margin:0;display:flex;flex-wrap:wrap;gap:1rem 2rem;align-items:center}figure>svg{width:min(100%,34rem)}\n",
    )?;
    push_markup(
        text,
        "figcaption{max-width:20rem;flex:1 1 14rem}ul{list-style:none;padding:0}li svg{width:3rem;height:1.3rem;vertical-align:middle;margin-right:.6rem}\n",
    )?;
    push_markup(
        text,
        "path{fill:none;stroke:var(--k);stroke-width:80}.n{stroke:var(--n);stroke-width:22}\n",
    )?;
    push_markup(
        text,
        ".m{stroke:var(--m);stroke-width:132}.c{stroke:var(--c);stroke-width:132;stroke-dasharray:26 26}\n",
    )
}

/// The tree, and paper.
fn push_style_tree(text: &mut String) -> Result<(), OutOfMemory>
    ensures { OnOk result (string_bytes text.new ≡ string_bytes text.old ++ (style_tree)) }
{
    push_markup(
        text,
        "details details,details>div{margin-left:1.4rem}details details details details details details details details>*{margin-left:0}details>div{padding-left:1rem}summary{cursor:pointer}small{color:var(--s);margin-left:.7em}\n",
    )?;
    push_markup(
        text,
        ".t>summary>bdi,.f>summary>bdi,.t>bdi,.f>bdi{color:var(--m);font-weight:600}.i>summary>bdi{color:var(--m)}\n",
    )?;
    push_markup(
        text,
        "@media print{body{max-width:none;padding:0;font-size:9pt;columns:2}h1,h2,p,ul,.s,figure,pre,table{column-span:all}h2{break-after:avoid}figure,tr,pre{break-inside:avoid}\n",
    )?;
    push_markup(
        text,
        "figure>svg{width:11cm;print-color-adjust:exact}details::details-content{content-visibility:visible;block-size:auto}div.w>small:last-child:after{content:', whole'}}\n",
    )
}

/// The style.
fn push_style(text: &mut String) -> Result<(), OutOfMemory>
    ensures { OnOk result (string_bytes text.new ≡ string_bytes text.old ++ (style_base ++ style_text ++ style_picture ++ style_tree)) }
{
    push_style_base(text)?;
    push_style_text(text)?;
    push_style_picture(text)?;
    push_style_tree(text)
}

/// What comes before the title.
pub(crate) fn push_head_front(text: &mut String) -> Result<(), OutOfMemory>
    ensures { OnOk result (string_bytes text.new ≡ string_bytes text.old ++ head_front) }
{
    push_markup(text, "<!DOCTYPE html>\n<!-- a page of udfsalvage -->\n")?;
    push_markup(
        text,
        "<html lang=en>\n<head>\n<meta charset=utf-8>\n<meta name=viewport content='width=device-width, initial-scale=1'>\n<title>",
    )
}

/// What comes after the title.
pub(crate) fn push_head_back(text: &mut String) -> Result<(), OutOfMemory>
    ensures { OnOk result (string_bytes text.new ≡ string_bytes text.old ++ head_back) }
{
    push_markup(text, "</title>\n<style>\n")?;
    push_style(text)?;
    push_markup(text, "</style>\n</head>\n<body>\n<h1>")
}

/// What the page is called, before what it is of.
pub(crate) fn push_titled(text: &mut String, title: Option<&str>) -> Result<(), OutOfMemory>
    ensures { OnOk result (string_bytes text.new ≡ string_bytes text.old ++ titled_html (option_map (λ title. title.now) title.entry)) }
{
    match title {
        None => Ok(()),
        Some(title) => {
            push_html(text, title)?;
            push_markup(text, ": ")
        }
    }
}

/// The heading.
#[tactic(auto, unfolding(crate::specs::Heads::heading_html))]
pub(crate) fn push_heading(text: &mut String, title: Option<&str>) -> Result<(), OutOfMemory>
    ensures { OnOk result (string_bytes text.new ≡ string_bytes text.old ++ heading_html (option_map (λ title. title.now) title.entry)) }
{
    push_titled(text, title)?;
    push_markup(text, "What can be salvaged</h1>\n")
}
