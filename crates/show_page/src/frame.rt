//! The frame of the page.

ghost use Rattle.std.specs.Prelude.{◌≡◌, ◌++◌, OnOk};
ghost use Rattle.std.specs.String.{string_bytes};
ghost use Rattle.show_drawings.specs.MarkupWords.Pieces.{GainsOne};
ghost use Rattle.show_page.specs.Frame.{IsStyle, around_words, cards_link, cards_open, cut_words, document_close, document_open, header_open, legend_open, main_open, nav_open, panel_open, sheets_close, sheets_open, stage_open, style_open, wiring_close, wiring_open};

use chart_numerals::push_between;
use std::alloc::AllocError;

#[tactic(auto, unfolding(crate::specs::Frame::document_open))]
// The front of the document, up to its title.
pub(crate) fn write_document_open(text: &mut String) -> Result<(), AllocError>
    ensures { OnOk result (string_bytes text.new ≡ string_bytes text.old ++ document_open) }
{
    text.push_str(
        "<!DOCTYPE html>\n<html xmlns=\"http://www.w3.org/1999/xhtml\" lang=\"en\"><head><meta charset=\"utf-8\"/>\n<meta name=\"viewport\" content=\"width=device-width, initial-scale=1\"/><title>",
    )
}

#[tactic(auto, unfolding(crate::specs::Frame::style_open))]
// What stands between the title and the style sheet.
pub(crate) fn write_style_open(text: &mut String) -> Result<(), AllocError>
    ensures { OnOk result (string_bytes text.new ≡ string_bytes text.old ++ style_open) }
{
    text.push_str("</title>\n<style>")
}

// Writes the style sheet, for light and dark and for paper: sheets like green-bar paper, the panel, wires in twelve colours. Of the elements
// with explanations, wires, hubs and cycles it shows the one that is linked to, and at the empty path of a picture the panel. Of a character it
// takes the tens (lt, wt) and units (lu, wu) of its line and its wheel from the name, as p1l23w45. On the sheet that the rule of its page lets
// have these numbers, its row has the wheel (at), and the link with this number is marked: a row and a link have their own tens and units (t, u).
// The numbers aren't inherited otherwise, so that a browser looks at no other row. A form has at most 144 lines.
pub(crate) fn write_style(text: &mut String) -> Result<(), AllocError>
    ensures { OnOk result (GainsOne IsStyle (string_bytes text.old) (string_bytes text.new)) }
{
    text.push_str(
        ":root{--ground:#f2eee4;--paper:#fdfcf7;--bar:#dfeedd;--hole:#cfc8b6;--ink:#20252a;--soft:#5a5f63;--rule:#cfc7b4;--link:#8a2b12;--pick:#ffd667;--plate:#1f252b;--ring:#1769d2}
@media(prefers-color-scheme:dark){:root{--ground:#17191b;--paper:#222629;--bar:#2b3a30;--hole:#3d4246;--ink:#ece7dc;--soft:#adb1b3;--rule:#4b5054;--link:#ffb490;--pick:#795c0c;--plate:#11151a;--ring:#7ab8ff}}
*{box-sizing:border-box}main [id],main a{scroll-margin-top:3.4rem}
body{margin:0;font:1.0625rem/1.5 Georgia,Times New Roman,serif;color:var(--ink);background:var(--ground)}
a{color:var(--link)}a:focus-visible{outline:3px solid var(--ring);outline-offset:1px}
header{padding:1.3rem 1.5rem .2rem}h1{margin:.1em 0;font-size:clamp(1.7rem,4vw,2.9rem);line-height:1.1;letter-spacing:.02em}
.kind{margin:0;font:600 .78rem/1.3 Arial,sans-serif;letter-spacing:.06em;text-transform:uppercase;color:var(--soft)}
.counts{margin:.3em 0 .6em;max-width:44em;font-size:1.08rem}.cut{max-width:44em;color:var(--soft)}
main{padding:0 1.5rem 2rem}h2{margin:1.4rem 0 .2rem;font-size:1.5rem;border-bottom:2px solid var(--ink)}main>p{margin:.35rem 0 .7rem;color:var(--soft);font-size:.98rem}
nav{display:flex;flex-wrap:wrap;gap:.3rem;position:sticky;top:0;z-index:3;padding:.4rem 0;background:var(--ground)}
nav a{font:600 .9rem Arial,sans-serif;padding:.35em .8em;border-radius:1.2em;text-decoration:none;color:var(--ground);background:var(--ink)}nav a:hover,nav a:focus{background:var(--link)}
pre{font-family:Courier Prime,Courier New,Courier,monospace}
.sheets{display:grid;gap:1rem}
.sheets pre{margin:0;overflow-x:auto;padding:0 1.6em;border:1px solid var(--rule);box-shadow:0 2px 10px #0002;font-size:clamp(9px,calc(41vw/(var(--n) + 16)/.6),1.32rem);line-height:1.6em;print-color-adjust:exact;background:radial-gradient(circle at .8em .8em,var(--hole) .28em,#0000 .3em) 0 0/1.6em 1.6em repeat-y,radial-gradient(circle at .8em .8em,var(--hole) .28em,#0000 .3em) 100% 0/1.6em 1.6em repeat-y,repeating-linear-gradient(var(--paper) 0 4.8em,var(--bar) 4.8em 9.6em)}
.sheets b a{font-weight:600;color:var(--link)}.sheets b{display:inline-block;width:6.2em;margin-right:1.2em;font:600 max(.72em,11px)/1.2 Arial,sans-serif;text-align:right;color:var(--soft)}
.sheets a{color:inherit;font-weight:700;text-decoration:underline dotted #a58f5f .07em;text-underline-offset:.22em}.sheets a:hover,.sheets a:focus,.sheets span:target{background:var(--pick)}.sheets span:target b,.sheets span:target b a{color:inherit}
@property --lt{syntax:'\\3c number>';inherits:false;initial-value:0}@property --lu{syntax:'\\3c number>';inherits:false;initial-value:0}@property --wt{syntax:'\\3c number>';inherits:false;initial-value:0}@property --wu{syntax:'\\3c number>';inherits:false;initial-value:0}@property --at{syntax:'\\3c number>';inherits:true;initial-value:0}
.sheets span{--t:0;--u:0;--lt:inherit;--lu:inherit;--wt:inherit;--wu:inherit;--at:calc((var(--wt) + var(--wu))*max(0,1 - (var(--lt) + var(--lu) - var(--t) - var(--u))*(var(--lt) + var(--lu) - var(--t) - var(--u))))}
.sheets a{--t:0;--u:0}.sheets span>a{background:linear-gradient(var(--pick),var(--pick)) 0/calc(100% - 100%*(var(--at) - var(--t) - var(--u))*(var(--at) - var(--t) - var(--u))) 100%}
body:has(>aside>:target[id*=l1]:not([id*=l1w])) .sheets{--lt:10}.sheets [id*=l1]:not([id$=l1]){--t:10}
body:has(>aside>:target[id*=l2]:not([id*=l2w])) .sheets{--lt:20}.sheets [id*=l2]:not([id$=l2]){--t:20}
body:has(>aside>:target[id*=l3]:not([id*=l3w])) .sheets{--lt:30}.sheets [id*=l3]:not([id$=l3]){--t:30}
body:has(>aside>:target[id*=l4]:not([id*=l4w])) .sheets{--lt:40}.sheets [id*=l4]:not([id$=l4]){--t:40}
body:has(>aside>:target[id*=l5]:not([id*=l5w])) .sheets{--lt:50}.sheets [id*=l5]:not([id$=l5]){--t:50}
body:has(>aside>:target[id*=l6]:not([id*=l6w])) .sheets{--lt:60}.sheets [id*=l6]:not([id$=l6]){--t:60}
body:has(>aside>:target[id*=l7]:not([id*=l7w])) .sheets{--lt:70}.sheets [id*=l7]:not([id$=l7]){--t:70}
body:has(>aside>:target[id*=l8]:not([id*=l8w])) .sheets{--lt:80}.sheets [id*=l8]:not([id$=l8]){--t:80}
body:has(>aside>:target[id*=l9]:not([id*=l9w])) .sheets{--lt:90}.sheets [id*=l9]:not([id$=l9]){--t:90}
body:has(>aside>:target[id*=l10]:not([id*=l10w])) .sheets{--lt:100}.sheets [id*=l10]:not([id$=l10]){--t:100}
body:has(>aside>:target[id*=l11]:not([id*=l11w])) .sheets{--lt:110}.sheets [id*=l11]:not([id$=l11]){--t:110}
body:has(>aside>:target[id*=l12]:not([id*=l12w])) .sheets{--lt:120}.sheets [id*=l12]:not([id$=l12]){--t:120}
body:has(>aside>:target[id*=l13]:not([id*=l13w])) .sheets{--lt:130}.sheets [id*=l13]:not([id$=l13]){--t:130}
body:has(>aside>:target[id*=l14]:not([id*=l14w])) .sheets{--lt:140}.sheets [id*=l14]:not([id$=l14]){--t:140}
body:has(>aside>:target[id*=w1]:not([id$=w1])) .sheets{--wt:10}.sheets [href*=w1]:not([href$=w1]){--t:10}
body:has(>aside>:target[id*=w2]:not([id$=w2])) .sheets{--wt:20}.sheets [href*=w2]:not([href$=w2]){--t:20}
body:has(>aside>:target[id*=w3]:not([id$=w3])) .sheets{--wt:30}.sheets [href*=w3]:not([href$=w3]){--t:30}
body:has(>aside>:target[id*=w4]:not([id$=w4])) .sheets{--wt:40}.sheets [href*=w4]:not([href$=w4]){--t:40}
body:has(>aside>:target[id*=w5]:not([id$=w5])) .sheets{--wt:50}.sheets [href*=w5]:not([href$=w5]){--t:50}
body:has(>aside>:target[id*=w6]:not([id$=w6])) .sheets{--wt:60}.sheets [href*=w6]:not([href$=w6]){--t:60}
body:has(>aside>:target[id*=w7]:not([id$=w7])) .sheets{--wt:70}.sheets [href*=w7]:not([href$=w7]){--t:70}
body:has(>aside>:target[id*=w8]:not([id$=w8])) .sheets{--wt:80}.sheets [href*=w8]:not([href$=w8]){--t:80}
body:has(>aside>:target[id*=w9]:not([id$=w9])) .sheets{--wt:90}.sheets [href*=w9]:not([href$=w9]){--t:90}
body:has(>aside>:target[id*=w10]:not([id$=w10])) .sheets{--wt:100}.sheets [href*=w10]:not([href$=w10]){--t:100}
body:has(>aside>:target[id*=w11]:not([id$=w11])) .sheets{--wt:110}.sheets [href*=w11]:not([href$=w11]){--t:110}
body:has(>aside>:target[id*=w12]:not([id$=w12])) .sheets{--wt:120}.sheets [href*=w12]:not([href$=w12]){--t:120}
body:has(>aside>:target[id*='1w']) .sheets{--lu:1}body:has(>aside>:target[id$='1']) .sheets{--wu:1}.sheets [id$='1'],.sheets [href$='1']{--u:1}
body:has(>aside>:target[id*='2w']) .sheets{--lu:2}body:has(>aside>:target[id$='2']) .sheets{--wu:2}.sheets [id$='2'],.sheets [href$='2']{--u:2}
body:has(>aside>:target[id*='3w']) .sheets{--lu:3}body:has(>aside>:target[id$='3']) .sheets{--wu:3}.sheets [id$='3'],.sheets [href$='3']{--u:3}
body:has(>aside>:target[id*='4w']) .sheets{--lu:4}body:has(>aside>:target[id$='4']) .sheets{--wu:4}.sheets [id$='4'],.sheets [href$='4']{--u:4}
body:has(>aside>:target[id*='5w']) .sheets{--lu:5}body:has(>aside>:target[id$='5']) .sheets{--wu:5}.sheets [id$='5'],.sheets [href$='5']{--u:5}
body:has(>aside>:target[id*='6w']) .sheets{--lu:6}body:has(>aside>:target[id$='6']) .sheets{--wu:6}.sheets [id$='6'],.sheets [href$='6']{--u:6}
body:has(>aside>:target[id*='7w']) .sheets{--lu:7}body:has(>aside>:target[id$='7']) .sheets{--wu:7}.sheets [id$='7'],.sheets [href$='7']{--u:7}
body:has(>aside>:target[id*='8w']) .sheets{--lu:8}body:has(>aside>:target[id$='8']) .sheets{--wu:8}.sheets [id$='8'],.sheets [href$='8']{--u:8}
body:has(>aside>:target[id*='9w']) .sheets{--lu:9}body:has(>aside>:target[id$='9']) .sheets{--wu:9}.sheets [id$='9'],.sheets [href$='9']{--u:9}
.board{overflow-x:auto}#panel{display:block;width:100%;min-width:38rem;max-width:72rem;height:auto;stroke-opacity:.9}.plate{fill:var(--plate)}
.blocks text{font:18px Arial,sans-serif;fill:#dfe4e8}.blocks .small{font-size:12px;fill:#a4acb3}
.blocks path{fill:none;stroke:#69737d;stroke-width:6;stroke-linecap:round;stroke-opacity:1}.dots10{stroke-dasharray:0 10}.dots13{stroke-dasharray:0 13}.dots15{stroke-dasharray:0 15}
.wires path{fill:none;stroke-width:2.8}.wires a:hover path,.wires a:focus path{stroke:#ffd23f;stroke-width:9;stroke-opacity:1}
.hubs circle{fill:#e9edf0;stroke:#0b0d0f;stroke-width:1}.hubs a:hover circle,.hubs a:focus circle{fill:#ffd23f;r:8px}
.c0{stroke:#b0bec5;--deep:#78909c}.c1{stroke:#ff8a80;--deep:#d9574c}.c2{stroke:#64b5f6;--deep:#3d8fd1}.c3{stroke:#81c784;--deep:#4f9a53}.c4{stroke:#ce93d8;--deep:#a763b3}.c5{stroke:#ffb74d;--deep:#d98c1f}
.c6{stroke:#4dd0e1;--deep:#2398a8}.c7{stroke:#f48fb1;--deep:#cf5f87}.c8{stroke:#c7a488;--deep:#94704f}.c9{stroke:#9fa8da;--deep:#6c77bd}.c10{stroke:#d4e157;--deep:#98a31f}.c11{stroke:#80cbc4;--deep:#45988f}
.legend pre{margin:.3em 0;padding:.25em .7em;border-left:.6rem solid var(--deep);background:var(--paper);font-size:.85rem;line-height:1.5;white-space:pre-wrap}.legend pre:target,.legend pre:hover{background:var(--pick)}
aside{background:var(--paper)}.begin,aside section{padding:.6rem 1.2rem 1.4rem}aside h2{font-size:1.32rem;border:0}aside section{display:none}aside section:target{display:block}aside:has(>section:target) .begin{display:none}
aside section pre{margin:.4em 0;font-size:.92rem;line-height:1.45;white-space:pre-wrap}aside section[id^=cycle] pre{white-space:pre;overflow-x:auto}aside pre::first-line{font-weight:700}
aside section>a:has(>svg){display:block;max-width:34rem;padding:0;border:0;margin:.3rem 0}aside section>a{display:inline-block;margin:0 .4rem .3rem 0;padding:.3em .75em;border:1.5px solid var(--ink);border-radius:1.2em;font:600 .85rem Arial,sans-serif;text-decoration:none;color:var(--ink)}aside section>a:hover,aside section>a:focus{background:var(--pick)}
aside section div{columns:15em}aside section div a{display:block}aside p{margin:.35em 0}details{margin:.35em 0}summary{cursor:pointer;font-weight:700}summary:hover{background:var(--pick)}summary:focus-visible{outline:3px solid var(--ring)}.begin p a{display:inline-block;margin-right:.6em}
aside svg{display:block;width:100%;height:auto;max-width:80rem;margin:.5rem 0}aside svg path{fill:none;stroke:#ffd23f;stroke-width:8;stroke-linejoin:round;stroke-linecap:round}aside svg .background,aside svg .card{stroke:none}aside svg .background{marker-start:url(#background)}marker{overflow:visible}#background{stroke-opacity:.22}
.shapes{position:absolute}.card{stroke:none;fill:none;marker-start:url(#blank);marker-end:url(#fields)}.names{stroke:none;fill:none;marker-start:url(#fields)}
.sheet{fill:#ecdcb4;stroke:#8c7645;stroke-width:3}.digits{font:14.5px monospace;letter-spacing:6.27px;fill:#a08a58}.print{font:700 25px Courier New,monospace;fill:#2b2a28;white-space:pre}.number{font:600 21px Arial,sans-serif;fill:#6b5a30;text-anchor:end}.holes{stroke:#14171a;stroke-width:9.5;fill:none}
#fields path{fill:#00000012;stroke:var(--deep);stroke-width:3;stroke-dasharray:8 5}#fields text{font:700 23px Arial,sans-serif;stroke:none;fill:var(--ink)}
.deck{max-width:46rem}.deck svg{display:block;width:100%;height:auto}.deck a{display:block;position:relative;margin-bottom:-21%;filter:drop-shadow(0 -2px 3px #0003)}.deck a:last-child{margin-bottom:0}.deck a:hover,.deck a:focus{z-index:2;transform:translateY(-6px)}
table{border-collapse:collapse;font-size:.95rem}th,td{padding:.3em .6em;border-bottom:1px solid var(--rule);text-align:left}.sum td:nth-child(2){text-align:right;font-weight:700}.sum code{color:var(--soft);font-weight:400}code{white-space:pre-wrap;overflow-wrap:anywhere;font-family:Courier Prime,Courier New,Courier,monospace;font-weight:700}
@media(min-width:68em){body{display:grid;grid-template:auto 1fr/minmax(0,47fr) minmax(0,53fr)}header,main{grid-column:1;min-width:0}aside{grid-column:2;grid-row:1/3;position:sticky;top:0;height:100vh;overflow:auto;border-left:3px solid var(--ink)}aside svg{max-height:calc(100vh - 4rem)}}
@media(max-width:67.99em){header,main,.begin,aside section{padding-left:.9rem;padding-right:.9rem}.sheets pre{font-size:clamp(9px,calc(88vw/(var(--n) + 16)/.6),1.32rem)}aside{border-top:4px solid var(--ink)}th,td{padding:.3em}aside section:target{min-height:100vh}}
@media(min-width:130em){html{font-size:.8vw}}
@page{margin:9mm 12mm}
@media print{:root{--ground:#fff;--paper:#fff;--ink:#000;--soft:#333;--plate:#fff;--bar:#dfeedd;--rule:#cfc7b4;--link:#8a2b12;--pick:#ffd667}body{display:block;font-size:10pt}header,main{padding:0}h1{font-size:20pt}h2{margin:4mm 0 1mm;font-size:13pt;break-after:avoid}.kind,nav,main>p,.begin,aside section>a{display:none}.sheets pre{box-shadow:none;break-inside:avoid;font-size:min(8pt,calc(170mm/(var(--n) + 16)/.6));line-height:1.25em;background:repeating-linear-gradient(var(--paper) 0 3.75em,var(--bar) 3.75em 7.5em)}.board{overflow:visible;break-inside:avoid}#panel{min-width:0;stroke-opacity:1}.plate{stroke:#333;stroke-width:3}.blocks text,.blocks .small{fill:#222}.blocks path{stroke:#aaa}.hubs circle{fill:#222}.wires path{stroke:var(--deep)}.deck{max-width:none;display:grid;grid-template-columns:1fr 1fr 1fr;gap:2mm 3mm}.deck a{margin:0;filter:none;break-inside:avoid}.deck a:last-child{margin:0}.deck>svg{display:none}.legend{columns:3;column-gap:4mm}.legend pre{margin:0 0 1mm;padding:0 2mm;font-size:7pt;line-height:1.3;orphans:4;widows:4;-webkit-box-decoration-break:clone;box-decoration-break:clone}aside{position:static;height:auto;overflow:visible;border:0;break-before:page}aside:not(:has(>section:target)){display:none}aside section:target{padding:0;min-height:0}aside svg{max-height:none}aside svg path{stroke:#d81e05}}
",
    )
}

#[tactic(auto, unfolding(crate::specs::Frame::header_open))]
// The end of the head, and the front of the body, up to the title.
pub(crate) fn write_header_open(text: &mut String) -> Result<(), AllocError>
    ensures { OnOk result (string_bytes text.new ≡ string_bytes text.old ++ header_open) }
{
    text.push_str(
        "</style></head><body>\n<header><p class=\"kind\">A report of a simulated IBM 407 accounting machine, and how it came about</p>\n<h1>",
    )
}

#[tactic(auto, unfolding(crate::specs::Frame::cut_words))]
// What is said where only the first pages and cycles are shown.
pub(crate) fn write_cut_words(text: &mut String) -> Result<(), AllocError>
    ensures { OnOk result (string_bytes text.new ≡ string_bytes text.old ++ cut_words) }
{
    text.push_str(
        "<p class=\"cut\">The deck has more than 200 cards: at most its first two pages, its first 200 cards and its first 200 cycles are shown.</p>\n",
    )
}

#[tactic(auto, unfolding(crate::specs::Frame::around_words))]
// What is said where the pages around one are shown.
pub(crate) fn write_around_words(text: &mut String, page: u32) -> Result<(), AllocError>
    ensures { OnOk result (string_bytes text.new ≡ string_bytes text.old ++ around_words page) }
{
    push_between(
        text,
        "<p class=\"cut\">This is page ",
        page,
        " of the report with the pages next to it, if any. The cards and cycles begin with the card before that of the first line, if any, and end with the card of the last line: 200 cards and 1000 cycles at most.</p>\n",
    )
}

#[tactic(auto, unfolding(crate::specs::Frame::nav_open))]
// The front of the links to the parts of the page, with that to the report.
pub(crate) fn write_nav_open(text: &mut String) -> Result<(), AllocError>
    ensures { OnOk result (string_bytes text.new ≡ string_bytes text.old ++ nav_open) }
{
    text.push_str("</header>\n<main>\n<nav><a href=\"#report\">Report</a> ")
}

#[tactic(auto, unfolding(crate::specs::Frame::cards_link))]
// The link to the cards.
pub(crate) fn write_cards_link(text: &mut String) -> Result<(), AllocError>
    ensures { OnOk result (string_bytes text.new ≡ string_bytes text.old ++ cards_link) }
{
    text.push_str("<a href=\"#cards\">Cards</a> ")
}

#[tactic(auto, unfolding(crate::specs::Frame::main_open))]
// The other links, and what stands before the sheets, up to how many characters the widest line has.
pub(crate) fn write_main_open(text: &mut String) -> Result<(), AllocError>
    ensures { OnOk result (string_bytes text.new ≡ string_bytes text.old ++ main_open) }
{
    text.push_str(
        "<a href=\"#panel\">Panel</a> <a href=\"#chart\">Chart</a></nav>\n<h2 id=\"report\">The report</h2>\n<p>Each printed character is a link. The word at the left of a line tells which cycle printed it: one for a heading, that of a card, or one for the totals of a level. The final one comes after the last card.</p>\n<div class=\"sheets\" style=\"--n:",
    )
}

#[tactic(auto, unfolding(crate::specs::Frame::sheets_open))]
// What stands behind that.
pub(crate) fn write_sheets_open(text: &mut String) -> Result<(), AllocError>
    ensures { OnOk result (string_bytes text.new ≡ string_bytes text.old ++ sheets_open) }
{
    text.push_str("\">\n")
}

#[tactic(auto, unfolding(crate::specs::Frame::sheets_close))]
// The end of the sheets.
pub(crate) fn write_sheets_close(text: &mut String) -> Result<(), AllocError>
    ensures { OnOk result (string_bytes text.new ≡ string_bytes text.old ++ sheets_close) }
{
    text.push_str("</div>\n")
}

#[tactic(auto, unfolding(crate::specs::Frame::cards_open))]
// What stands before the cards that are shown.
pub(crate) fn write_cards_open(text: &mut String) -> Result<(), AllocError>
    ensures { OnOk result (string_bytes text.new ≡ string_bytes text.old ++ cards_open) }
{
    text.push_str(
        "<h2 id=\"cards\">The cards</h2>\n<p>The cards as they were read, the first one at the top. A hole in row 3 is a 3. With one in row 12, 11 or 0 above it, it is a letter. A card is a link.</p>\n",
    )
}

#[tactic(auto, unfolding(crate::specs::Frame::panel_open))]
// What stands before the drawing.
pub(crate) fn write_panel_open(text: &mut String) -> Result<(), AllocError>
    ensures { OnOk result (string_bytes text.new ≡ string_bytes text.old ++ panel_open) }
{
    text.push_str(
        "<h2>The panel</h2>\n<p>Impulses leave the machine at the hubs above, and come back to it at those below. The drawing is our own schematic, not the real layout of the machine.</p>\n<div class=\"board\">\n",
    )
}

#[tactic(auto, unfolding(crate::specs::Frame::legend_open))]
// What stands before the legend of a chart.
pub(crate) fn write_legend_open(text: &mut String) -> Result<(), AllocError>
    ensures { OnOk result (string_bytes text.new ≡ string_bytes text.old ++ legend_open) }
{
    text.push_str(
        "</div>\n<h2 id=\"chart\">What each line asks for</h2>\n<p>A wire has the colour of the first line that asks for it.</p>\n<div class=\"legend\">\n",
    )
}

#[tactic(auto, unfolding(crate::specs::Frame::wiring_open))]
// What stands before the text of a wiring chart.
pub(crate) fn write_wiring_open(text: &mut String) -> Result<(), AllocError>
    ensures { OnOk result (string_bytes text.new ≡ string_bytes text.old ++ wiring_open) }
{
    text.push_str(
        "</div>\n<h2 id=\"chart\">The wiring chart</h2>\n<div class=\"legend\">\n<pre class=\"c0\">",
    )
}

#[tactic(auto, unfolding(crate::specs::Frame::wiring_close))]
// What stands behind the text of a wiring chart.
pub(crate) fn write_wiring_close(text: &mut String) -> Result<(), AllocError>
    ensures { OnOk result (string_bytes text.new ≡ string_bytes text.old ++ wiring_close) }
{
    text.push_str("</pre>\n")
}

#[tactic(auto, unfolding(crate::specs::Frame::stage_open))]
// What stands between the legend and what is shown of what was chosen.
pub(crate) fn write_stage_open(text: &mut String) -> Result<(), AllocError>
    ensures { OnOk result (string_bytes text.new ≡ string_bytes text.old ++ stage_open) }
{
    text.push_str("</div>\n</main>\n<aside>\n")
}

#[tactic(auto, unfolding(crate::specs::Frame::document_close))]
// The end of the document.
pub(crate) fn write_document_close(text: &mut String) -> Result<(), AllocError>
    ensures { OnOk result (string_bytes text.new ≡ string_bytes text.old ++ document_close) }
{
    text.push_str("</aside>\n</body></html>\n")
}
