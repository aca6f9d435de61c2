//! The fixed parts of a sheet: heads and styles.

/// The start of an image up to its height.
pub(crate) const IMAGE: &str = "<svg xmlns=\"http://www.w3.org/2000/svg\" class=\"chart\" \
role=\"img\" width=\"1390\" height=\"";

/// The start of a rectangle with a stroke, up to the end of its class.
pub(crate) const WIDE_BAR: &str = "<rect class=\"bar wide";

/// The start of a rectangle that is too narrow for a stroke.
pub(crate) const NARROW_BAR: &str = "<rect class=\"bar";

/// The class of a bar without slack.
pub(crate) const TIGHT_CLASS: &str = " tight";

/// The text between the class of a rectangle and its place.
pub(crate) const BAR_LEFT: &str = "\" x=\"";

/// The text between the place of a rectangle and its width.
pub(crate) const BAR_WIDTH: &str = "\" y=\"2\" width=\"";

/// The text between the width of a rectangle and its description.
pub(crate) const BAR_TIP: &str = "\" height=\"16\"><title>";

/// The colours, light and dark.
pub(crate) const COLOURS: &str =
    ":root{color-scheme:light dark;--ink:#1b1b1b;--soft:#595959;--line:#c4c4c4;--shade:#e9e9e9;\
--bar:#5b9bd9;--tight:#8c1d18;--paper:#fff}
@media(prefers-color-scheme:dark){:root{--ink:#ececec;--soft:#b0b0b0;--line:#555;--shade:#2e2e2e;\
--bar:#3f6f9f;--tight:#f08a7e;--paper:#161616}}
@media print{:root{--ink:#000;--soft:#333;--line:#bbb;--shade:#e6e6e6;\
--bar:#7fb2e5;--tight:#8c1d18;--paper:#fff}}
";

/// The style of a chart.
pub(crate) const CHART_STYLE: &str = ".chart{background:var(--paper)}
.chart text{font:16px system-ui,sans-serif;fill:var(--ink)}
.chart .off{fill:var(--shade)}
.chart .week,.chart .tick{stroke:var(--line);fill:none}
.chart .bar{fill:var(--bar)}
.chart .wide{stroke:var(--paper)}
.chart .tight{fill:var(--tight)}
.chart .tail{stroke:var(--bar);stroke-width:3}
.chart .on{fill:var(--ink)}
.chart .use{fill:var(--bar);fill-opacity:.35;stroke:var(--bar)}
.chart .most{stroke:var(--tight);stroke-dasharray:6 3}
.chart .end{text-anchor:end}
.chart *{print-color-adjust:exact;-webkit-print-color-adjust:exact}
";

/// The head of a page up to its title.
pub(crate) const HEAD: &str = "<!DOCTYPE html>
<html lang=\"en\">
<head>
<meta charset=\"utf-8\">
<meta name=\"viewport\" content=\"width=device-width,initial-scale=1\">
<title>";

/// The style of a page around its charts.
pub(crate) const PAGE_STYLE: &str =
    "body{margin:1rem;background:var(--paper);color:var(--ink);font:15px/1.4 system-ui,sans-serif}
h1{font-size:1.4rem;margin:0;overflow-wrap:anywhere}
h2{font-size:1.1rem;margin:1.2rem 0 .3rem}
p{margin:.2rem 0 .8rem;color:var(--soft)}
figure{margin:0 0 1rem;overflow-x:auto}
.key{margin:0 0 .4rem}
.key .chart{display:inline-block;width:auto;min-width:0}
.chart{display:block;width:100%;min-width:60rem;height:auto}
.scroll{overflow-x:auto}
table{border-collapse:collapse;font-variant-numeric:tabular-nums}
th,td{padding:.15rem .6rem;border-bottom:1px solid var(--line);text-align:right;font-weight:400;\
white-space:nowrap}
thead th{border-bottom:2px solid var(--soft);font-weight:600}
th.name,td.name{text-align:left;white-space:normal;min-width:8rem;max-width:24rem;\
overflow-wrap:anywhere}
@page{size:A4 landscape;margin:10mm 10mm 12mm;\
@bottom-right{content:counter(page) \" of \" counter(pages);font:9pt system-ui,sans-serif}}
@media print{body{margin:0;font-size:9pt}
h1{font-size:13pt;line-height:1.2}
h2{font-size:11pt;line-height:1.2;margin:2mm 0 1mm}
p{margin:0 0 1mm;line-height:1.3}
p+h2{display:none}
figure{margin:0 0 2mm}
.key{line-height:1.2;margin:0 0 1mm}
figure,.scroll{overflow:visible}
figure{break-inside:avoid}
.chart{min-width:0}
h2{break-after:avoid}
thead{display:table-header-group}
tr{break-inside:avoid}}
";

/// The heads of the first columns of a table.
pub(crate) const FIRST_HEADS: &str = "<thead>
<tr><th scope=\"col\">No.</th><th scope=\"col\" class=\"name\">Name</th>";

/// The same with ids in the place of numbers.
pub(crate) const ID_HEADS: &str = "<thead>
<tr><th scope=\"col\">Id</th><th scope=\"col\" class=\"name\">Name</th>";

/// The heads of the resources and the predecessors.
pub(crate) const LINK_HEADS: &str =
    "<th scope=\"col\" class=\"name\">Resources</th><th scope=\"col\" class=\"name\">Predecessors</th>";

/// The head of the machines.
pub(crate) const MACHINE_HEAD: &str = "<th scope=\"col\" class=\"name\">Machine</th>";

/// The heads of the times.
pub(crate) const TIME_HEADS: &str =
    "<th scope=\"col\">Duration</th><th scope=\"col\">Start</th><th scope=\"col\">End</th>";

/// The heads of the days.
pub(crate) const DAY_HEADS: &str =
    "<th scope=\"col\">First day</th><th scope=\"col\">Last day</th>";

/// The head of the floats.
pub(crate) const FLOAT_HEAD: &str = "<th scope=\"col\">Float</th>";

/// The head of the slacks.
pub(crate) const SLACK_HEAD: &str = "<th scope=\"col\">Slack</th>";

/// The end of the first row of a table.
pub(crate) const HEADS_TO: &str = "</tr>\n</thead>\n<tbody>\n";

/// The start of a table, which scrolls in itself if it is wider than the page.
pub(crate) const TABLE_FROM: &str = "<div class=\"scroll\" tabindex=\"0\">\n<table>\n";

/// The end of a table.
pub(crate) const TABLE_TO: &str = "</tbody>\n</table>\n</div>\n";

/// The start of a row up to its number.
pub(crate) const ROW_NUMBER: &str = "<tr><th scope=\"row\">";

/// The text between the number of a row and its name.
pub(crate) const ROW_NAME: &str = "</th><td class=\"name\">";

/// The start of a cell with a name.
pub(crate) const NAME_CELL: &str = "<td class=\"name\">";

/// The start of the area of a resource's use.
pub(crate) const USE_FROM: &str = "<path class=\"use\" d=\"M330 108";

/// The end of the area, at the end of the axis.
pub(crate) const USE_TO: &str = "H1330V108z\"/>\n";

/// The line of a capacity, up to its number.
pub(crate) const CAPACITY_LINE: &str =
    "<path class=\"most\" d=\"M330 28h1000\"/><text class=\"end\" x=\"324\" y=\"34\">";

/// The text between the number of a capacity and the name of its resource.
pub(crate) const USE_NAME: &str =
    "</text>\n<svg width=\"270\" height=\"112\"><text x=\"4\" y=\"74\">";

/// The end of a page's title, and the start of its styles.
pub(crate) const STYLES_FROM: &str = "</title>\n<style>\n";

/// The end of the styles, up to the title on the page.
pub(crate) const STYLES_TO: &str = "</style>\n</head>\n<body>\n<h1>";

/// The text between the title of a page and its note.
pub(crate) const TITLE_TO: &str = "</h1>\n<p>";

/// The text between the note of a page and its charts.
pub(crate) const NOTE_TO: &str = "</p>\n<h2>Gantt chart</h2>\n";

/// The meaning of the colours of a chart.
pub(crate) const LEGEND: &str =
    "<div class=\"key\"><svg width=\"24\" height=\"12\" class=\"chart\">\
<rect class=\"bar tight\" width=\"24\" height=\"12\"/></svg> no slack \
<svg width=\"40\" height=\"12\" class=\"chart\"><rect class=\"bar\" width=\"24\" height=\"12\"/>\
<path class=\"tail\" d=\"M24 6H40\"/></svg> slack, up to the end of the thin line</div>\n";

/// The heading of a table.
pub(crate) const TABLE_TITLE: &str = "<h2>Table</h2>\n";

/// The end of a page.
pub(crate) const PAGE_TO: &str = "</body>\n</html>\n";
