//! The page of `elide page`, as scripts/refresh-page puts it together from page/.

/// The page up to its title.
pub const HEAD: &str = "\
<!DOCTYPE html>\n\
<html lang=\"en\">\n\
<head>\n\
<meta charset=\"utf-8\">\n\
<meta http-equiv=\"Content-Security-Policy\" content=\"default-src 'none'; script-src 'sha256-EphanBL1m22k3w4b\
0zih70zIW7EL0j/Pyp/GozmupLA='; style-src 'sha256-Vw9JkZ1+HuvCmq2p1qmfZGN7WtC1c5EtD0eeJITUiqA='; base-uri 'none\
'; form-action 'none'\">\n\
<meta name=\"viewport\" content=\"width=device-width, initial-scale=1\">\n\
<meta name=\"color-scheme\" content=\"light dark\">\n\
<title>";

/// Between the title and the data.
pub const MIDDLE: &str = "\
</title>\n\
<style>:root{--paper:#f6f5f1;--card:#fff;--ink:#1c2430;--soft:#56606d;--dim:#626a75;--rule:#d9d7cf;--cell:#c8c\
5ba;--hot:#fff1b8;--hotline:#b98900;--bad:#b3261e;--badsoft:#fbe6e2;--note:#fff8dd;--accent:#1f5fa8;--mono:ui-\
monospace,\"DejaVu Sans Mono\",\"Cascadia Mono\",Menlo,Consolas,monospace;--sans:system-ui,\"Segoe UI\",\"Helv\
etica Neue\",Helvetica,\"DejaVu Sans\",Arial,sans-serif;}.k0{--k:#0072b2;--t:#fff}.k1{--k:#e69f00;--t:#000}.k2\
{--k:#007d5b;--t:#fff}.k3{--k:#cc79a7;--t:#000}.k4{--k:#56b4e9;--t:#000}.k5{--k:#7b4ea3;--t:#fff}.k6{--k:#b8ae\
1c;--t:#000}.k7{--k:#6d6f73;--t:#fff}@media screen{:root[data-theme=dark]{--paper:#12161c;--card:#1b2129;--ink\
:#e8ebef;--soft:#b0b9c5;--dim:#a0aab6;--rule:#343d49;--cell:#5a6675;--hot:#453808;--hotline:#e0b93c;--bad:#ff9\
482;--badsoft:#4a2420;--note:#37310f;--accent:#8cc2ff;}[data-theme=dark] .k0{--k:#3d9fe0;--t:#000}[data-theme=\
dark] .k2{--k:#1fb88c;--t:#000}[data-theme=dark] .k5{--k:#b48be0;--t:#000}[data-theme=dark] .k7{--k:#a7adb5;--\
t:#000}}#cores{display:grid;gap:12px;grid-template-columns:repeat(auto-fit,minmax(min(100%,238px),1fr))}.core{\
border-top:5px solid var(--k);padding:8px 11px;container-type:inline-size}.core.did{box-shadow:0 0 0 2px var(-\
-k)}.core h3{margin:0;font-size:.98rem;display:flex;gap:8px;align-items:center;flex-wrap:wrap}.pill{font:600 .\
74rem var(--sans);border-radius:99px;padding:1px 9px;border:1.5px solid var(--rule);color:var(--soft);}.pill.i\
nside{border-color:var(--k);color:var(--ink);background:color-mix(in srgb,var(--k) 18%,transparent)}.pill.doom\
ed{border-color:var(--bad);color:var(--bad)}.pill.stopped{background:var(--ink);color:var(--paper);border-colo\
r:var(--ink)}.next{font:.84rem var(--mono);margin:4px 0 6px;overflow-wrap:anywhere}.next small{color:var(--sof\
t);font-family:var(--sans)}.pending{font:.84rem var(--mono);margin:0 0 2px;color:var(--soft)}.core .body{displ\
ay:grid;gap:0 14px;align-items:start}@container (max-width:359px){.few .state{flex-basis:100%}}@container (min\
-width:360px){.few .core .body{grid-template-columns:15.2em minmax(0,1fr)}.few .core .body .sets{margin-top:0}\
}.registers{display:grid;grid-template-columns:1fr 1fr;gap:1px 10px;font:.86rem var(--mono);margin:0}.register\
s > div{display:grid;grid-template-columns:3.5em auto 1fr;border-radius:4px;padding:0 4px;align-content:start;\
border-left:3px solid transparent;}.registers dt{color:var(--soft)}.registers dd{margin:0}.registers .zeros{co\
lor:var(--dim)}.registers .was,.registers .back{white-space:nowrap;overflow:hidden;text-overflow:ellipsis;padd\
ing-left:6px;font-size:.9em;color:var(--soft);font-weight:400;}.registers .changed{background:var(--hot);borde\
r-left-color:var(--hotline);font-weight:700}.registers .changed dt,.registers .changed .zeros,.registers .chan\
ged .back,.registers .changed .was{color:var(--ink);}.few .registers{grid-template-columns:1fr}.few .registers \
> div{grid-template-columns:3.5em 5.3em 1fr}.few .registers .was,.few .registers .back{grid-column:3;align-sel\
f:center}.few .registers .was + .back{display:none}#cores:not(.few) .was{display:none}.flags b{color:var(--dim\
);font-weight:400;margin-right:3px}.flags b.on{color:var(--ink);font-weight:700;text-decoration:underline}.cha\
nged .flags b{color:var(--ink)}.sets{margin:7px 0 0;font-size:.84rem;display:grid;grid-template-columns:auto 1\
fr;gap:2px 8px}.sets dt{color:var(--soft)}.sets dd{margin:0;display:flex;flex-wrap:wrap;gap:3px 5px;min-width:\
0}.chip{border:1.5px solid var(--k,var(--rule));border-radius:5px;padding:0 5px;font:.8rem var(--mono);overflo\
w-wrap:anywhere;}.chip.written{background:color-mix(in srgb,var(--k) 22%,transparent)}.chip.new{background:var\
(--hot);border-color:var(--hotline)}.chip.lost{border-style:dashed;border-color:var(--bad);text-decoration:lin\
e-through}*{box-sizing:border-box}[hidden],.gone{display:none !important}html{font:15px/1.45 var(--sans);backg\
round:var(--paper);color:var(--ink);scrollbar-color:var(--rule) transparent;}body{margin:0 auto;max-width:1880\
px;padding:0 14px 24px}h1{font-size:1.25rem;margin:0;overflow-wrap:anywhere}h2{font-size:.8rem;margin:0;text-t\
ransform:uppercase;letter-spacing:.07em;color:var(--soft)}header{display:flex;gap:8px 16px;align-items:center;\
flex-wrap:wrap;padding:10px 0 8px}header > div{flex:1 1 260px;min-width:0}code,.mono{font-family:var(--mono);o\
verflow-wrap:anywhere}.command{margin:0;font:.78rem var(--mono);color:var(--soft);overflow-wrap:anywhere}butto\
n,select,input[type=number]{font:inherit;color:inherit;background:var(--card);border:1px solid var(--rule);bor\
der-radius:7px;padding:4px 9px;min-height:32px;}button{cursor:pointer}button:hover:not(:disabled){border-color\
:var(--accent)}button:disabled{opacity:.4;cursor:default}button[aria-pressed=true]{background:var(--ink);color\
:var(--paper)}:focus-visible{outline:3px solid var(--accent);outline-offset:1px}.card{background:var(--card);b\
order:1px solid var(--rule);border-radius:11px;padding:10px 12px;min-width:0;margin:0;}.head{display:flex;gap:\
6px 10px;align-items:center;flex-wrap:wrap;margin-bottom:7px}.head h2{flex:1}.head,.head label{font-size:.82re\
m}.head button,.head select{min-height:26px;padding:1px 8px;font-size:.82rem}.quiet{color:var(--soft)}.name{fo\
nt-family:var(--mono);overflow-wrap:anywhere}.badge{display:inline-block;min-width:1.45em;padding:0 .3em;borde\
r-radius:5px;background:var(--k);color:var(--t);font:700 .85em/1.5 var(--mono);text-align:center;vertical-alig\
n:baseline;}.hidden{position:absolute;width:1px;height:1px;overflow:hidden;clip-path:inset(50%);white-space:no\
wrap;}.grid{display:grid;gap:12px;grid-template-columns:minmax(0,1fr)}#left{grid-area:left}#time{grid-area:tim\
e;align-self:start}#mid{grid-area:mid}#right{grid-area:right}@media (min-width:860px){.grid{grid-template:\"ti\
me time\" auto \"left mid\" 1fr / minmax(320px,5fr) minmax(0,8fr)}.grid > div{display:flex;flex-direction:colu\
mn;gap:12px;min-width:0}}@media (min-width:1100px){.grid{grid-template:\"left time\" auto \"left mid\" 1fr / m\
inmax(330px,4fr) minmax(0,9fr)}}@media (min-width:1560px){.grid{grid-template:\"left time time\" auto \"left m\
id right\" 1fr / minmax(0,5fr) minmax(0,7fr) minmax(0,6fr);}}@media (max-width:1559px){#right{display:none !im\
portant}}@media (max-width:859px){.grid{display:flex;flex-direction:column}.grid > div{display:contents !impor\
tant}#time{align-self:auto !important}.order0{order:0}.order1{order:1}.order2{order:2}.order3{order:3}.order4{\
order:4}.order5{order:5}body{padding:0 8px 110px}}textarea{width:100%;font:inherit;color:inherit;background:va\
r(--paper);border:1px solid var(--rule);border-radius:6px;padding:5px 8px;resize:vertical;}kbd{font:.82em var(\
--mono);border:1px solid var(--rule);border-bottom-width:2px;border-radius:4px;padding:0 5px;background:var(--\
paper);}footer{font-size:.85rem;color:var(--soft);margin-top:12px;display:grid;gap:12px;grid-template-columns:\
repeat(auto-fit,minmax(min(100%,360px),1fr));}footer p{margin:4px 0}footer dl{display:grid;grid-template-colum\
ns:auto 1fr;gap:3px 12px;margin:4px 0}footer dd{margin:0}.framed header,.framed footer{display:none}.framed bo\
dy{padding-top:8px}.nocode .grid{display:flex !important;flex-direction:column;align-items:stretch}.nocode #le\
ft,.nocode #right{display:contents !important}.nocode #time{align-self:auto !important}#vars{display:flex;gap:\
6px 14px;align-items:baseline;flex-wrap:wrap;padding:7px 12px}#variables{list-style:none;display:flex;flex-wra\
p:wrap;gap:5px 8px;margin:0;padding:0;flex:1}.variable{border:1px solid var(--rule);border-radius:7px;padding:\
1px 9px;display:flex;gap:8px;align-items:baseline;font-size:.9rem;flex-wrap:wrap;}.variable .value{font:700 1.\
05em var(--mono)}.variable .changed{background:var(--hot);box-shadow:inset 3px 0 var(--hotline);padding:0 7px;\
border-radius:3px;}.variable .name{color:var(--soft)}.line{border:1.5px solid var(--rule);border-radius:8px;pa\
dding:6px 8px;margin-bottom:8px}.line.hit{border-color:var(--bad);box-shadow:0 0 0 1.5px var(--bad)}.line p{ma\
rgin:0 0 5px;display:flex;flex-wrap:wrap;gap:3px 8px;align-items:center;font-size:.86rem}#set-body{container-t\
ype:inline-size}.words{display:grid;grid-template-columns:repeat(4,minmax(0,1fr));gap:3px;font:.75rem var(--mo\
no)}@container (min-width:640px){.words{grid-template-columns:repeat(8,minmax(0,1fr))}}.word{border:1px solid \
var(--rule);border-radius:4px;padding:1px 3px 0;min-width:0;overflow:hidden;display:flex;flex-direction:column\
;}.word .at{font-size:.68rem;color:var(--soft);white-space:nowrap;overflow:hidden;text-overflow:ellipsis;min-h\
eight:1.2em;}.word.empty .value{color:var(--dim)}.word.changed{background:var(--hot);border-color:var(--hotlin\
e)}.word.changed .at{color:var(--ink)}.word .private{background:var(--k);color:var(--t);border-radius:3px;padd\
ing:0 2px;margin-top:1px;white-space:nowrap;}.word .readers{display:flex;gap:2px;margin-top:auto;padding:2px 0\
}.word .readers i{height:4px;flex:1;background:var(--k)}#list{list-style:none;margin:0;padding:0;font-size:.87\
rem;max-height:310px;overflow:auto;position:relative;}#list button{all:unset;box-sizing:border-box;display:gri\
d;grid-template-columns:3.6em auto 1fr;gap:0 8px;width:100%;padding:3px 5px;border-radius:5px;cursor:pointer;b\
order-left:4px solid transparent;}#list button:hover{background:var(--paper)}#list button:focus-visible{outlin\
e:3px solid var(--accent)}#list [aria-current]{background:var(--hot);border-left-color:var(--hotline)}#list .b\
adge{align-self:start}#list .step{font-variant-numeric:tabular-nums;text-align:right;color:var(--soft)}#list [\
aria-current] .step{color:var(--ink)}#list .cross{color:var(--bad);font-weight:700}#list span{overflow-wrap:an\
ywhere;min-width:0}@media (prefers-reduced-motion:no-preference){.row,.word,.registers > div{transition:backgr\
ound-color .15s}}@media print{:root{--paper:#fff}html{font-size:11px}body{max-width:none;padding:0}.bar,header \
button,.head button,.head select,.head label,footer,#events,#overview{display:none !important}#stage{position:\
static;box-shadow:none}.told{min-height:0 !important}.grid,.grid > div{display:block !important}.grid > div > \
*,#time{margin-bottom:10px}#cores{display:grid !important;grid-template-columns:repeat(3,1fr)}.card,.core,.lin\
e{break-inside:avoid}#source{max-height:none;overflow:visible}.row{white-space:pre-wrap;min-width:0}*{print-co\
lor-adjust:exact;-webkit-print-color-adjust:exact}}#source{max-height:max(300px,calc(100vh - 250px));overflow:\
auto;position:relative;font:.86rem/1.55 var(--mono);border-radius:6px;}.row{display:grid;white-space:pre;min-w\
idth:max-content;border-left:4px solid transparent;tab-size:8;grid-template-columns:minmax(min(var(--marks,4.4\
em),19vw),max-content) minmax(2.6em,max-content) 1fr;}.row > .marks{text-align:right;padding-right:4px;font-si\
ze:.94em}.row .number{color:var(--soft);text-align:right;padding-right:9px;user-select:none}.row .comment{colo\
r:var(--soft)}.row .label{font-weight:700}.row.at{background:color-mix(in srgb,var(--k) 13%,transparent)}.row.\
at .number,.row.at .comment{color:var(--ink)}.row.did{border-left-color:var(--k)}.row.did .instruction{text-de\
coration:underline;text-decoration-thickness:2px;text-underline-offset:3px;text-decoration-color:var(--k);}.ba\
dge.doomed{background:var(--card);color:var(--bad);box-shadow:inset 0 0 0 2px var(--bad)}.badge.back{backgroun\
d:none;color:var(--ink);box-shadow:inset 0 0 0 2px var(--k,var(--soft))}.badge.off{background:var(--card);colo\
r:var(--soft);box-shadow:inset 0 0 0 2px var(--soft)}@media (max-width:859px){#source{max-height:46vh}}#stage{\
position:sticky;top:0;z-index:5;padding:0;margin-bottom:12px;box-shadow:0 3px 12px #0002;overflow:hidden;}.tol\
d{display:flex;border-left:9px solid var(--k,var(--rule));padding:9px 14px;gap:14px;align-items:flex-start;min\
-height:5.9rem;}.noted .told{min-height:8rem}.told > div + div{min-width:0;flex:1}#count{font:700 1.5rem/1.1 v\
ar(--sans);font-variant-numeric:tabular-nums;min-width:3.4em;white-space:nowrap;}#count small{display:block;fo\
nt-size:.72rem;font-weight:400;color:var(--soft)}#say{margin:0;font-size:1.05rem;overflow-wrap:anywhere}#say c\
ode{background:var(--paper);border:1px solid var(--rule);border-radius:4px;padding:0 4px;font-size:.95em;}.doo\
mline{display:block;color:var(--bad);font-weight:650;margin-top:2px}.why{display:block;font-size:.87rem;color:\
var(--soft);margin-top:1px}#note{margin:7px 0 1px;padding:6px 11px;background:var(--note);border-left:4px soli\
d var(--hotline);border-radius:4px;font-size:1.05rem;white-space:pre-wrap;overflow-wrap:anywhere;}.bar{display\
:flex;gap:6px;align-items:center;flex-wrap:wrap;padding:6px 12px 8px;border-top:1px solid var(--rule);}.bar bu\
tton{display:inline-flex;align-items:center;justify-content:center;gap:4px;min-width:38px}.bar svg{width:16px;\
height:16px;fill:currentColor;flex:none}#slide{flex:1 1 180px;min-width:110px;accent-color:var(--accent);heigh\
t:26px}#go{width:5.4em}#play{background:var(--ink);color:var(--paper);border-color:var(--ink);min-width:76px}@\
media (max-width:859px){#stage{position:static}.bar{position:fixed;bottom:0;left:0;right:0;background:var(--ca\
rd);z-index:9;box-shadow:0 -3px 12px #0002;justify-content:center;padding:5px 8px;gap:4px;}.bar button{min-wid\
th:36px;padding:3px 6px}.bar .opt{display:none}.told,.noted .told{min-height:0;padding:7px 10px;gap:9px}#say{f\
ont-size:.95rem}#count{font-size:1.15rem;min-width:2.6em}}#timeline{display:block;width:100%;touch-action:pan-\
y;cursor:pointer;user-select:none}#overview{display:block;width:100%;margin-top:6px;border-radius:5px;cursor:p\
ointer;touch-action:none}.lines text{font:12px var(--mono);fill:var(--ink)}.lines .tick{fill:var(--soft);font-\
size:11px;text-anchor:middle}.lines .mid{text-anchor:middle}.lines .lab{font-weight:700}.lines .grid{stroke:va\
r(--rule)}.lines .out{fill:var(--cell)}.lines .in{fill:var(--k)}.lines .wait{fill:var(--k);fill-opacity:.2;str\
oke:var(--k);stroke-width:1.6}.lines .other{stroke-dasharray:5 3}.lines .open{stroke-dasharray:1.5 3}.lines .d\
oomed{fill:url(#hatch);stroke:var(--bad);stroke-width:2}.lines .hatch-line{stroke:var(--bad);stroke-width:2.6}\
.lines .hatch-base{fill:var(--badsoft)}.lines text.on{fill:var(--t)}.lines .abort{fill:var(--card);stroke:var(\
--bad);stroke-width:2}.lines .abort-other{fill:var(--card);stroke:var(--k);stroke-width:2}.lines .abort-outsid\
e{fill:var(--card);stroke:var(--ink);stroke-width:2;stroke-dasharray:3 2}.lines text.abort-text{fill:var(--bad\
);font-weight:700}.lines text.outside-text{fill:var(--ink);font-weight:700}.lines .stop{fill:var(--ink)}.lines \
text.stop-text{fill:var(--paper)}.lines .arrow{stroke:var(--bad);stroke-width:2.4;fill:none;marker-end:url(#ti\
p)}.lines .halo{stroke:var(--card);stroke-width:6;fill:none}.lines .origin,.lines .tip{fill:var(--bad)}.lines \
.arrow-label{fill:var(--bad);font-weight:700;font-size:11.5px;stroke:var(--card);stroke-width:4px;paint-order:\
stroke;}.lines .segment{fill:none;stroke:var(--soft)}.lines .future{fill:var(--card);pointer-events:none}.line\
s .cursor{fill:none;stroke:var(--ink);stroke-width:2.2;pointer-events:none}.lines .flag{fill:var(--ink);pointe\
r-events:none}.lines text.flag-text{fill:var(--paper);font-weight:700;text-anchor:middle;pointer-events:none}.\
lines .later-dim{opacity:.4}.lines .later-hide{display:none}.lines .note-mark{fill:var(--hotline)}.legend{disp\
lay:flex;flex-wrap:wrap;gap:3px 13px;font-size:.8rem;color:var(--soft);margin-top:6px;align-items:center;}.leg\
end svg{height:16px;vertical-align:-3px;margin-right:5px}</style>\n\
</head>\n\
<body>\n\
<header>\n\
<div><h1 id=\"title\"></h1><p class=\"command\" id=\"command\"></p></div>\n\
<button id=\"base\" type=\"button\" aria-pressed=\"false\" title=\"Values of memory in hex\">hex</button>\n\
<button id=\"link\" type=\"button\">Copy link to this step</button>\n\
<button id=\"theme\" type=\"button\">Dark</button>\n\
</header>\n\
<noscript>\n\
<p class=\"card\">This page shows the steps of a run, and needs JavaScript for it. It loads nothing from elsew\
here.</p>\n\
</noscript>\n\
<section id=\"stage\" class=\"card\" aria-label=\"Step\">\n\
<div class=\"told\" id=\"told\">\n\
<div id=\"count\"></div>\n\
<div><p id=\"say\" aria-live=\"polite\" aria-atomic=\"true\"></p><p id=\"note\" hidden></p></div>\n\
</div>\n\
<div class=\"bar\" role=\"group\" aria-label=\"Move through the run\">\n\
<button id=\"to-begin\" type=\"button\" title=\"To the beginning (Home)\" aria-label=\"To the beginning\">\n\
<svg viewBox=\"0 0 16 16\" aria-hidden=\"true\"><path d=\"M2 2h2v12H2zM14 2v12L5 8z\"/></svg></button>\n\
<button id=\"event-back\" type=\"button\" title=\"Previous event (Up)\" aria-label=\"Previous event\">\n\
<svg viewBox=\"0 0 16 16\" aria-hidden=\"true\"><path d=\"M8 2v12L0 8zM16 2v12L8 8z\"/></svg></button>\n\
<button id=\"step-back\" type=\"button\" title=\"One step back (Left)\" aria-label=\"One step back\">\n\
<svg viewBox=\"0 0 16 16\" aria-hidden=\"true\"><path d=\"M13 2v12L3 8z\"/></svg></button>\n\
<button id=\"play\" type=\"button\" title=\"Play (Space)\">\n\
<svg viewBox=\"0 0 16 16\" aria-hidden=\"true\"><path d=\"M3 1v14l11-7z\"/></svg><span>Play</span></button>\n\
<button id=\"step-on\" type=\"button\" title=\"One step on (Right)\" aria-label=\"One step on\">\n\
<svg viewBox=\"0 0 16 16\" aria-hidden=\"true\"><path d=\"M3 2v12l10-6z\"/></svg></button>\n\
<button id=\"event-on\" type=\"button\" title=\"Next event (Down)\" aria-label=\"Next event\">\n\
<svg viewBox=\"0 0 16 16\" aria-hidden=\"true\"><path d=\"M8 2v12l8-6zM0 2v12l8-6z\"/></svg></button>\n\
<button id=\"to-end\" type=\"button\" title=\"To the end (End)\" aria-label=\"To the end\">\n\
<svg viewBox=\"0 0 16 16\" aria-hidden=\"true\"><path d=\"M12 2h2v12h-2zM2 2v12l9-6z\"/></svg></button>\n\
<input type=\"range\" id=\"slide\" min=\"0\" value=\"0\" aria-label=\"Step\">\n\
<label class=\"opt\">step <input type=\"number\" id=\"go\" min=\"0\"></label>\n\
<label class=\"opt\"><span class=\"hidden\">Speed</span><select id=\"speed\">\n\
<option value=\"2000\">1 step in 2 s</option>\n\
<option value=\"1000\" selected>1 step a second</option>\n\
<option value=\"400\">2.5 a second</option>\n\
<option value=\"100\">10 a second</option>\n\
<option value=\"33\">30 a second</option>\n\
</select></label>\n\
</div>\n\
</section>\n\
<main class=\"grid\">\n\
<div id=\"left\">\n\
<section id=\"code\" class=\"card order1\" aria-labelledby=\"head-code\">\n\
<div class=\"head\"><h2 id=\"head-code\">Program</h2><span class=\"quiet\" id=\"code-hint\"></span></div>\n\
<div id=\"source\" tabindex=\"0\" role=\"region\" aria-labelledby=\"head-code\"></div>\n\
</section>\n\
</div>\n\
<section id=\"time\" class=\"card order0\" aria-label=\"Timeline\">\n\
<div class=\"head\"><h2>Timeline</h2>\n\
<label class=\"opt quiet\">future <select id=\"future\">\n\
<option value=\"dim\">faint</option>\n\
<option value=\"show\">shown</option>\n\
<option value=\"hide\">hidden</option>\n\
</select></label>\n\
<button id=\"zoom-out\" type=\"button\" aria-label=\"Zoom out\">&#8722;</button>\n\
<button id=\"zoom-in\" type=\"button\" aria-label=\"Zoom in\">+</button>\n\
</div>\n\
<svg class=\"lines\" id=\"timeline\" role=\"img\"></svg>\n\
<canvas id=\"overview\" height=\"40\" aria-hidden=\"true\" hidden></canvas>\n\
<div class=\"legend\" id=\"legend\"></div>\n\
</section>\n\
<div id=\"mid\">\n\
<section id=\"vars\" class=\"card order2\" aria-labelledby=\"head-vars\">\n\
<h2 id=\"head-vars\">Memory</h2><ul id=\"variables\"></ul></section>\n\
<section id=\"cores\" class=\"order3\" aria-label=\"Cores\"></section>\n\
</div>\n\
<div id=\"right\">\n\
<section id=\"sets\" class=\"card order4\" aria-labelledby=\"head-sets\">\n\
<div class=\"head\"><h2 id=\"head-sets\">Lines of 64 bytes in read and write sets</h2></div>\n\
<div id=\"set-body\"></div>\n\
</section>\n\
<section id=\"events\" class=\"card order5\" aria-labelledby=\"head-events\">\n\
<div class=\"head\"><h2 id=\"head-events\">Events</h2><select id=\"which\" aria-label=\"Which events\"></selec\
t></div>\n\
<ul id=\"list\"></ul><p class=\"quiet\" id=\"more\"></p>\n\
</section>\n\
</div>\n\
</main>\n\
<footer>\n\
<div class=\"card\"><h2>Keys</h2><dl>\n\
<dt><kbd>&#8592;</kbd> <kbd>&#8594;</kbd></dt><dd>one step back, on</dd>\n\
<dt><kbd>&#8593;</kbd> <kbd>&#8595;</kbd></dt><dd>previous, next event: commit, conflict, abort, stop, note</d\
d>\n\
<dt><kbd>Home</kbd> <kbd>End</kbd></dt><dd>to the beginning, to the end</dd>\n\
<dt><kbd>Space</kbd></dt><dd>plays, and pauses</dd>\n\
<dt><kbd>Page &#8593;</kbd> <kbd>Page &#8595;</kbd></dt><dd>as many steps as the timeline shows</dd>\n\
</dl></div>\n\
<div class=\"card\"><h2>Captions</h2>\n\
<p><label for=\"my-note\">Caption of this step (kept until the page is closed)</label></p>\n\
<textarea id=\"my-note\" rows=\"2\"></textarea>\n\
<p><label for=\"options\">To keep them, add these options to the command:</label></p>\n\
<textarea id=\"options\" rows=\"2\" readonly class=\"mono\"></textarea>\n\
</div>\n\
<div class=\"card\"><h2>In a lecture</h2>\n\
<p>The address takes <code>#step=12</code>, and the parts that are wanted, as\n\
<code>#step=12&amp;parts=time,code,cores,vars,sets,events</code>, so that a frame in a slide can show some of \
them;\n\
and <code>theme=dark</code>, and <code>future=hide</code>, which keeps what comes next to yourself.</p>\n\
<p id=\"about\"></p>\n\
</div>\n\
</footer>\n\
<script type=\"application/json\" id=\"run\">";

/// Behind the data.
pub const TAIL: &str = "\
</script>\n\
<script>\n\
'use strict';\n\
(() => {\n\
const begun = performance.now();\n\
const run = JSON.parse(document.getElementById('run').textContent);\n\
const stepCount = run.steps.length, coreCount = run.cores, firstStep = run.from || 0;\n\
const registerNames = ['eax', 'ecx', 'edx', 'ebx', 'esp', 'ebp', 'esi', 'edi', 'eip', 'flags'];\n\
const EAX = 0, ESP = 4, EIP = 8, FLAGS = 9;\n\
const flagBits = [['C', 1], ['P', 4], ['A', 16], ['Z', 64], ['S', 128], ['O', 2048]];\n\
const byId = id => document.getElementById(id);\n\
const hex = (value, places = 8) => (value >>> 0).toString(16).padStart(places, '0');\n\
const numberOf = step => firstStep + step;\n\
const isKid = kid => kid !== null && kid !== undefined && kid !== false && kid !== '';\n\
function element(tag, className, ...kids) {\n\
const made = document.createElement(tag);\n\
if (className) made.className = className;\n\
made.append(...kids.filter(isKid));\n\
return made;\n\
}\n\
function drawn(tag, attributes, ...kids) {\n\
const made = document.createElementNS('http://www.w3.org/2000/svg', tag);\n\
for (const name in attributes) made.setAttribute(name, attributes[name]);\n\
made.append(...kids.filter(isKid));\n\
return made;\n\
}\n\
function titled(made, title) {\n\
made.title = title;\n\
return made;\n\
}\n\
const standing = new WeakMap();\n\
function refill(box, items) {\n\
const old = standing.get(box) || new Map(), now = new Map();\n\
for (const [key, make] of items) now.set(key, old.get(key) || make());\n\
for (const [key, child] of old) if (!now.has(key)) child.remove();\n\
let at = box.firstChild;\n\
for (const child of now.values()) {\n\
if (child === at) at = at.nextSibling; else box.insertBefore(child, at);\n\
}\n\
standing.set(box, now);\n\
return now;\n\
}\n\
function setClass(made, className) {\n\
if (made.className !== className) made.className = className;\n\
}\n\
const colourOf = core => 'k' + core % 8;\n\
const badge = (core, more = '') =>\n\
element('span', `badge ${colourOf(core)} ${more}`, element('span', 'hidden', 'core '), String(core));\n\
function eachPair(list, call) {\n\
for (let i = 0; list && i < list.length; i += 2) call(list[i], list[i + 1]);\n\
}\n\
const instructions = new Map(run.at.map(([address, row, text]) => [address, { row, text }]));\n\
const labels = run.labels.slice().sort((a, b) => a[0] - b[0]);\n\
const isInCode = address => address >= run.code[0] && address < run.code[1];\n\
const isSource = run.kind === 'source';\n\
const stackBytes = 4096;\n\
const stackOf = address => run.opening.findIndex(\n\
registers => registers[ESP] > stackBytes && address < registers[ESP] && address >= registers[ESP] - stackBytes\
);\n\
const lowestStack = run.opening[coreCount - 1][ESP] - stackBytes;\n\
const stacksAreUnnamed = !labels.some(([address]) => address >= lowestStack && !isInCode(address));\n\
function nameNear(address) {\n\
const stack = stackOf(address);\n\
if (stack >= 0 && stacksAreUnnamed) return 'stack of core ' + stack;\n\
let low = 0, high = labels.length;\n\
while (low < high) {\n\
const middle = (low + high) >> 1;\n\
if (labels[middle][0] <= address) low = middle + 1; else high = middle;\n\
}\n\
let index = low - 1;\n\
if (index < 0 || isInCode(address) !== isInCode(labels[index][0])) return '';\n\
while (index && labels[index - 1][0] === labels[index][0]) index--;\n\
const distance = address - labels[index][0];\n\
return distance ? `${labels[index][1]}+0x${distance.toString(16)}` : labels[index][1];\n\
}\n\
const lineNames = new Map();\n\
function lineName(line) {\n\
if (!lineNames.has(line)) lineNames.set(line, makeLineName(line));\n\
return lineNames.get(line);\n\
}\n\
function makeLineName(line) {\n\
const on = labels.filter(([address]) => address >>> 6 === line && !isInCode(address));\n\
if (!on.length) return nameNear(line * 64);\n\
let joined = '';\n\
for (const [, name] of on) {\n\
const short = name.length > 32 ? name.slice(0, 30) + '..' : name;\n\
if (joined && joined.length + short.length > 44) return joined + ' ..';\n\
joined += (joined && ' ') + short;\n\
}\n\
return joined;\n\
}\n\
function lineText(line) {\n\
const name = lineName(line);\n\
return `line ${line.toString(16)}${name ? ` (${name})` : ''}`;\n\
}\n\
function written(address) {\n\
const instruction = instructions.get(address);\n\
if (!instruction) return '?';\n\
if (!isSource) return instruction.text;\n\
const line = run.text[instruction.row];\n\
const code = line.replace(/;[^'\"]*$/, '').replace(/^\\s*[\\w.]+\\s*:/, '').trim().replace(/\\s+/g, ' ');\n\
return code || instruction.text;\n\
}\n\
const printed = address => (instructions.get(address) || { text: '' }).text;\n\
function fallbackOf(address) {\n\
const found = /xbegin (?:short )?0x([0-9a-f]+)/.exec(printed(address));\n\
return found ? parseInt(found[1], 16) : null;\n\
}\n\
const place = address => nameNear(address) || hex(address);\n\
const spot = address => stackOf(address) >= 0 && stacksAreUnnamed ? '[' + hex(address) + ']' : place(address);\n\
const following = new Map();\n\
{\n\
const all = [...instructions.keys()].sort((a, b) => a - b);\n\
all.forEach((address, index) => following.set(address, all[index + 1]));\n\
}\n\
const frameDistance = 64, zeroLine = new Uint8Array(64);\n\
const bytesOf = text => Uint8Array.from(text.match(/../g) || [], digits => parseInt(digits, 16));\n\
function openingCore(registers, core) {\n\
const made = {\n\
registers: registers.slice(), state: (run.states || [])[core] || 'run',\n\
base: null, begun: 0, doom: null, lost: null,\n\
reads: new Map(), writes: new Map(), loads: new Set(), stored: new Map(),\n\
pending: (run.pending || {})[core] || [],\n\
};\n\
const open = (run.open || {})[core];\n\
return open ? openedBefore(made, open) : made;\n\
}\n\
const isBuffered = Boolean(run.pending) || run.steps.some(([, , , more]) => more && more.s);\n\
function openedBefore(core, open) {\n\
core.base = open.b;\n\
for (const line of open.r || []) core.reads.set(line, 0);\n\
for (const line of open.w || []) core.writes.set(line, 0);\n\
eachPair(open.t, (address, digits) => bytesOf(digits).forEach((byte, i) => core.stored.set(address + i, byte))\
);\n\
if (open.d) {\n\
core.doom = { step: 0, line: open.d[0], isWrite: open.d[1], by: open.d[2] };\n\
core.lost = { reads: new Map(), writes: new Map(), loads: new Set(), stored: new Map() };\n\
}\n\
return core;\n\
}\n\
const opening = () => ({\n\
memory: new Map(Object.entries(run.bytes).map(([line, digits]) => [parseInt(line, 16), bytesOf(digits)])),\n\
cores: run.opening.map(openingCore),\n\
});\n\
const copyOf = state => ({\n\
memory: new Map(state.memory),\n\
cores: state.cores.map(core => ({\n\
...core, registers: core.registers.slice(), reads: new Map(core.reads), writes: new Map(core.writes),\n\
loads: new Set(core.loads), stored: new Map(core.stored),\n\
})),\n\
});\n\
const isOpen = core => core.state.startsWith('tx');\n\
const isDoomed = core => core.state === 'condemned';\n\
const isStopped = core => core.state.startsWith('stop');\n\
function close(core) {\n\
core.reads = new Map();\n\
core.writes = new Map();\n\
core.loads = new Set();\n\
core.stored = new Map();\n\
}\n\
function store(state, address, digits) {\n\
const bytes = bytesOf(digits);\n\
for (let at = 0; at < bytes.length;) {\n\
const line = (address + at) >>> 6, offset = (address + at) & 63, count = Math.min(64 - offset, bytes.length - \
at);\n\
const now = (state.memory.get(line) || zeroLine).slice();\n\
now.set(bytes.subarray(at, at + count), offset);\n\
state.memory.set(line, now);\n\
at += count;\n\
}\n\
}\n\
function doom(victim, step, by, line, isWrite) {\n\
victim.state = 'condemned';\n\
victim.lost = { reads: victim.reads, writes: victim.writes, loads: victim.loads, stored: victim.stored };\n\
victim.doom = { step, line, isWrite, by };\n\
victim.registers = victim.base.slice();\n\
close(victim);\n\
}\n\
function noteLoad(core, address, count) {\n\
for (let i = 0; i < count; i++) core.loads.add(address + i);\n\
}\n\
const isAbort = kind => kind === 'a' || kind === 'e';\n\
function apply(state, step) {\n\
const [number, kind, registers, more = {}] = run.steps[step - 1], core = state.cores[number];\n\
if (kind === 'b' && !isOpen(core)) {\n\
Object.assign(core, { base: core.registers.slice(), begun: step, doom: null, lost: null });\n\
close(core);\n\
}\n\
if (isAbort(kind)) {\n\
Object.assign(core, { base: null, doom: null, lost: null });\n\
close(core);\n\
}\n\
eachPair(registers, (register, value) => { core.registers[register] = value; });\n\
if (more.q) core.state = more.q;\n\
for (const line of more.r || []) core.reads.set(line, step);\n\
for (const line of more.w || []) core.writes.set(line, step);\n\
if (kind === 'i') eachPair(more.l, (address, count) => noteLoad(core, address, count));\n\
eachPair(more.t, (address, digits) => bytesOf(digits).forEach((byte, i) => core.stored.set(address + i, byte))\
);\n\
eachPair(more.m, (address, digits) => store(state, address, digits));\n\
if (kind === 'd') core.pending = core.pending.slice(1);\n\
if (more.s) core.pending = [...core.pending, more.s];\n\
if (kind === 'c') {\n\
core.base = null;\n\
close(core);\n\
}\n\
for (const [victim, line, isWrite] of more.d || []) doom(state.cores[victim], step, number, line, isWrite);\n\
}\n\
const pendingAt = (core, address) => (core.pending || []).findLast(\n\
([first, count]) => address >= first && address < first + count);\n\
function byteAt(state, address, core) {\n\
if (core && core.stored.has(address)) return core.stored.get(address);\n\
const store = core && pendingAt(core, address);\n\
if (store) return store[2] >>> 8 * (address - store[0]) & 255;\n\
return (state.memory.get(address >>> 6) || zeroLine)[address & 63];\n\
}\n\
function wordAt(state, address, core, count = 4) {\n\
let value = 0;\n\
for (let i = count - 1; i >= 0; i--) value = value * 256 + byteAt(state, address + i, core);\n\
return value;\n\
}\n\
const offsets = [0, 1, 2, 3];\n\
const hasPrivate = (core, address) => offsets.some(i => core.stored.has(address + i));\n\
const hasStored = (core, address) =>\n\
hasPrivate(core, address) || offsets.some(i => pendingAt(core, address + i));\n\
const frames = [], transactions = [], events = [], dooms = [];\n\
const addresses = new Uint32Array(stepCount + 1); // of the instruction that a step ran\n\
const values = run.show.map(() => []), transactionsOf = run.opening.map(() => []);\n\
function noteValues(state, step) {\n\
run.show.forEach(([, address], index) => {\n\
const value = wordAt(state, address), list = values[index];\n\
if (!list.length || value !== list[list.length - 1][1]) list.push([step, value]);\n\
});\n\
}\n\
function begin(open, core, step) {\n\
open[core] = { core, first: step, last: stepCount, fate: 'open', doomed: 0 };\n\
transactions.push(open[core]);\n\
}\n\
function end(open, core, step, kind) {\n\
const ended = open[core];\n\
if (!ended) return;\n\
const fates = { c: 'committed', e: 'outside', a: ended.doomed || ended.isDoomedBefore ? 'conflict' : 'aborted' \
};\n\
Object.assign(ended, { last: step, fate: fates[kind] });\n\
open[core] = null;\n\
}\n\
function noteStep(state, step, open) {\n\
const [core, kind, , more = {}] = run.steps[step - 1];\n\
addresses[step] = state.cores[core].registers[EIP];\n\
apply(state, step);\n\
if (kind === 'b' && !open[core]) begin(open, core, step);\n\
for (const [victim, line, isWrite] of more.d || []) {\n\
dooms.push({ step, by: core, victim, line, isWrite });\n\
if (open[victim]) open[victim].doomed = step;\n\
}\n\
if (kind === 'c' || isAbort(kind)) end(open, core, step, kind);\n\
if (isAbort(kind) || kind === 'c' || kind === 's' || more.d) events.push({ step, core, kind, dooms: more.d });\n\
if (more.m) noteValues(state, step);\n\
}\n\
{\n\
const state = opening(), open = [];\n\
state.cores.forEach((core, number) => {\n\
if (!core.base) return;\n\
begin(open, number, 0);\n\
open[number].isDoomedBefore = isDoomed(core);\n\
});\n\
noteValues(state, 0);\n\
frames.push(copyOf(state));\n\
for (let step = 1; step <= stepCount; step++) {\n\
noteStep(state, step, open);\n\
if (step % frameDistance === 0) frames.push(copyOf(state));\n\
}\n\
for (const transaction of transactions) transactionsOf[transaction.core].push(transaction);\n\
}\n\
function stateAt(step) {\n\
const index = Math.floor(step / frameDistance), state = copyOf(frames[index]);\n\
for (let next = index * frameDistance + 1; next <= step; next++) apply(state, next);\n\
return state;\n\
}\n\
const notes = new Map();\n\
for (const [step, text] of run.notes) notes.set(step, notes.has(step) ? notes.get(step) + '\\n' + text : text)\
;\n\
let marks = [];\n\
function gatherMarks() {\n\
const all = new Set(events.map(event => event.step));\n\
for (const step of notes.keys()) if (step <= stepCount) all.add(step);\n\
marks = [...all].sort((a, b) => a - b);\n\
}\n\
const reasonOf = step => run.why[step] || '';\n\
const causeOf = step => reasonOf(step).replace(/[: ].*$/s, '') || 'other';\n\
const kindOf = step => run.steps[step - 1][1];\n\
const moreOf = step => run.steps[step - 1][3] || {};\n\
let isHexShown = false;\n\
const view = { step: 0, state: null, before: null, future: 'dim' };\n\
function numberText(value) {\n\
if (isHexShown) return hex(value);\n\
if (value < 1e6) return String(value);\n\
return value > 0xfff00000 ? String(value - 4294967296) : '0x' + value.toString(16);\n\
}\n\
const statusBits = [\n\
[1, 'XABORT'], [4, 'a conflict'], [8, 'no room, or too deep'], [16, 'a breakpoint'], [32, 'nested'],\n\
[2, 'a retry may succeed'],\n\
];\n\
function statusText(status) {\n\
const set = statusBits.filter(([bit]) => status & bit).map(([, text]) => text);\n\
if (status & 1) set[0] += ` with 0x${(status >>> 24).toString(16)}`;\n\
return set.length ? set.join(', ') : 'no reason is told';\n\
}\n\
const storedText = digits => digits.length <= 8\n\
? numberText(bytesOf(digits).reduceRight((value, byte) => value * 256 + byte, 0)) : `${digits.length / 2} byte\
s`;\n\
function registerChanges(core, text) {\n\
const isStackUse = /^(push|pop|call|ret|leave)/.test(text), changes = [];\n\
const old = view.before.cores[core].registers, now = view.state.cores[core].registers;\n\
for (let register = 0; register < EIP; register++) {\n\
if (now[register] === old[register] || register === ESP && isStackUse) continue;\n\
changes.push(`${registerNames[register]} becomes ${numberText(now[register])}`);\n\
}\n\
return changes;\n\
}\n\
function flowOf(core, step, text) {\n\
const registers = view.state.cores[core].registers;\n\
if (/^(j|loop|call|ret)/.test(text)) {\n\
const isNext = registers[EIP] === following.get(addresses[step]);\n\
return [isNext ? 'does not jump' : `goes on at ${place(registers[EIP])}`];\n\
}\n\
return /^(cmp|test|xtest|bt )/.test(text) ? [`zero flag ${registers[FLAGS] & 64 ? 'set' : 'clear'}`] : [];\n\
}\n\
function actions(step) {\n\
const [core, kind, , more = {}] = run.steps[step - 1], did = [], sees = view.before.cores[core];\n\
eachPair(more.l, (address, count) =>\n\
did.push(`loads ${spot(address)} = ${numberText(wordAt(view.before, address, sees, count))}`));\n\
eachPair(more.t || more.m, (address, digits) => did.push(`stores ${storedText(digits)} to ${spot(address)}`));\n\
if (more.s) did.push(`stores ${numberText(more.s[2])} to ${spot(more.s[0])}`);\n\
if (kind !== 'p' && kind !== 'i') return did.join(', ');\n\
const text = printed(addresses[step]);\n\
return [...did, ...registerChanges(core, text), ...flowOf(core, step, text)].join(', ');\n\
}\n\
const joined = (lines, set) => lines\n\
? `; ${lines.map(lineText).join(', ')} join${lines.length > 1 ? '' : 's'} its ${set} set` : '';\n\
const badges = cores => cores.flatMap((core, index) => index\n\
? [index === cores.length - 1 ? ' and ' : ', ', badge(core)] : [badge(core)]);\n\
const outsideWords = {\n\
interrupt: 'an interrupt came in place of its next step',\n\
eviction: 'the processor gave up a line of its sets in place of its next step',\n\
snoop: 'an access from outside of the program took a line of its sets in place of its next step',\n\
};\n\
function beginWords(core, step) {\n\
if (isOpen(view.before.cores[core])) return [' nests another transaction: ', code(step), '.'];\n\
const fallback = fallbackOf(addresses[step]);\n\
const then = fallback === null ? '' : ` Should it abort, it goes on at ${place(fallback)} with the registers o\
f now.`;\n\
return [' begins a transaction: ', code(step), '. From here on what it stores is private.', then];\n\
}\n\
function insideWords(core, step) {\n\
const did = actions(step), more = moreOf(step);\n\
const stores = more.t ? ' (the store is private until it commits)' : '';\n\
const sets = joined(more.r, 'read') + joined(more.w, 'write');\n\
return [' inside its transaction: ', code(step), did ? `: ${did}${stores}` : '', sets, '.'];\n\
}\n\
function commitWords(core, step) {\n\
const count = view.before.cores[core].stored.size, isInner = isOpen(view.state.cores[core]);\n\
if (isInner) return [' ends an inner transaction: ', code(step), '.'];\n\
const bytes = count === 1 ? 'Its 1 stored byte reaches' : `Its ${count} stored bytes reach`;\n\
const came = count ? `. ${bytes} memory at once, in this one step.` : '. It had stored nothing.';\n\
return [' commits: ', code(step), came];\n\
}\n\
function abortWords(core, step) {\n\
const registers = view.state.cores[core].registers, status = registers[EAX], from = outsideWords[moreOf(step).\
e];\n\
const back = 'Its stores are gone, its registers are those before its XBEGIN, and it goes on at';\n\
return [from ? ` aborts: ${from}. ` : ' aborts. ',\n\
`${back} ${place(registers[EIP])} with EAX = ${hex(status)}: ${statusText(status)}.`];\n\
}\n\
function plainWords(core, step) {\n\
const did = actions(step), half = view.before.cores[core].state === 'mid' ? ' second half of ' : ' ';\n\
const pends = moreOf(step).s ? ' (the store is pending: no other core sees it yet)' : '';\n\
return [half, code(step), did ? `: ${did}${pends}.` : '.'];\n\
}\n\
function drainWords(core) {\n\
const [address, , value] = view.before.cores[core].pending[0];\n\
return [' drains: its oldest pending store reaches memory, ', `${numberText(value)} to ${spot(address)}.`];\n\
}\n\
const wordsOf = {\n\
b: beginWords, i: insideWords, c: commitWords, a: abortWords, e: abortWords, p: plainWords, d: drainWords,\n\
l: (core, step) => [' first half of ', code(step), `: ${actions(step)}. Another core may step before it stores\
.`],\n\
s: (core, step) => [' stops: ', code(step), `, ${stopText(view.state.cores[core])}.`],\n\
z: () => [' has stopped; nothing happens.'],\n\
};\n\
const code = step => element('code', '', written(addresses[step]));\n\
const stopText = core => core.state.replace(/^stop(ped)?[: ]/, '');\n\
function doomGroups(step) {\n\
const groups = new Map();\n\
for (const [victim, line, isWrite] of moreOf(step).d || []) {\n\
const core = view.before.cores[victim];\n\
const had = [core.reads.has(line) && 'read', core.writes.has(line) && 'written'].filter(Boolean).join(' and ')\
;\n\
const key = [line, isWrite, had].join();\n\
if (!groups.has(key)) groups.set(key, { line, isWrite, had, victims: [] });\n\
groups.get(key).victims.push(victim);\n\
}\n\
return [...groups.values()];\n\
}\n\
function doomLine(by, { line, isWrite, had, victims }) {\n\
const many = victims.length > 1;\n\
return element('span', 'doomline', '\\u2717 ', badge(by), ` ${isWrite ? 'writes' : 'reads'} ${lineText(line)}, \
which `,\n\
`the open transaction${many ? 's' : ''} of `, ...badges(victims), ` ${many ? 'have' : 'has'} ${had}: `,\n\
...badges(victims), many ? ' are doomed.' : ' is doomed.');\n\
}\n\
function sentence(step) {\n\
const count = `${stepCount} step${stepCount === 1 ? ' follows' : 's follow'}`;\n\
if (!step) {\n\
const begins = firstStep ? `Behind step ${firstStep} of the run` : 'The beginning';\n\
return [`${begins}: ${coreCount} core${coreCount > 1 ? 's' : ''}, ${count}.`];\n\
}\n\
const [core, kind] = run.steps[step - 1];\n\
const said = [element('span', 'hidden', `Step ${numberOf(step)}. `), badge(core), ...wordsOf[kind](core, step)\
];\n\
for (const group of doomGroups(step)) said.push(doomLine(core, group));\n\
if (reasonOf(step)) said.push(element('span', 'why', reasonOf(step)));\n\
return said.filter(isKid);\n\
}\n\
const rowHeight = coreCount <= 2 ? 56 : coreCount === 3 ? 50 : coreCount <= 5 ? 42 : 33;\n\
const scale = { labels: 74, top: 26, lane: 25, cell: 0, first: 0, shown: 0, width: 0 };\n\
const barHeight = Math.round(rowHeight * .6), laneCount = Math.min(values.length, 4);\n\
const leftOf = step => scale.labels + (step - 1 - scale.first) * scale.cell;\n\
const middleOf = core => scale.top + core * rowHeight + rowHeight / 2;\n\
let zoom = 0, arrows = [];\n\
const isWhole = () => scale.shown >= stepCount;\n\
const inRange = (number, low, high) => Math.max(low, Math.min(high, number));\n\
function layout() {\n\
scale.width = Math.max(260, byId('time').clientWidth - 26);\n\
scale.labels = scale.width < 560 ? 56 : 82;\n\
const room = scale.width - scale.labels - 4, fit = room / Math.max(stepCount, 1);\n\
const usual = fit >= 13 ? Math.min(fit, 138) : 17;\n\
scale.cell = inRange(usual * 1.5 ** zoom, 2, 150);\n\
scale.shown = Math.max(1, Math.floor(room / scale.cell));\n\
scale.first = isWhole() ? 0 : inRange(scale.first, 0, stepCount - scale.shown);\n\
}\n\
const definitions = () => drawn('defs', {},\n\
drawn('pattern', { id: 'hatch', width: 7, height: 7, patternUnits: 'userSpaceOnUse', patternTransform: 'rotate\
(45)' },\n\
drawn('rect', { class: 'hatch-base', width: 7, height: 7 }), drawn('path', { class: 'hatch-line', d: 'M1.5 0V7\
' })),\n\
drawn('marker', { id: 'tip', viewBox: '0 0 8 8', refX: 7, refY: 4, markerWidth: 11, markerHeight: 11,\n\
markerUnits: 'userSpaceOnUse', orient: 'auto' }, drawn('path', { class: 'tip', d: 'M0 0L8 4L0 8z' })));\n\
function ticks(first, last) {\n\
const every = [1, 2, 5, 10, 20, 50, 100, 200, 500, 1000].find(count => count * scale.cell >= 38) || 2000, made \
= [];\n\
for (let number = Math.ceil(numberOf(first) / every) * every; number <= numberOf(last); number += every) {\n\
const x = leftOf(number - firstStep) + scale.cell / 2;\n\
made.push(drawn('text', { class: 'tick', x, y: 13 }, String(number)));\n\
}\n\
return made;\n\
}\n\
function coreLabel(core) {\n\
const width = scale.labels - 12, y = middleOf(core), text = scale.labels < 60 ? 'c' + core : 'core ' + core;\n\
return [\n\
drawn('path', { class: 'grid', d: `M${scale.labels} ${y}H${scale.width}` }),\n\
drawn('g', { class: colourOf(core) },\n\
drawn('rect', { class: 'in', x: 0, y: y - 10, width, height: 20, rx: 5 }),\n\
drawn('text', { class: 'on mid lab', x: width / 2, y: y + 4.5 }, text)),\n\
];\n\
}\n\
const fateText = {\n\
committed: 'committed', conflict: 'aborted by a conflict', aborted: 'aborted',\n\
outside: 'aborted from outside', open: 'not ended',\n\
};\n\
function transactionBar(transaction, first, last) {\n\
const { core, doomed, fate } = transaction, gap = gapOfCells();\n\
const y = middleOf(core) - barHeight / 2, radius = scale.cell > 8 ? 5 : 1;\n\
const from = transaction.first < first ? scale.labels - 6 : leftOf(transaction.first) + gap;\n\
const to = transaction.last > last ? scale.width : leftOf(transaction.last) + scale.cell - gap;\n\
const turn = doomed ? Math.max(leftOf(doomed) + scale.cell / 2, from) : to;\n\
const form = fate === 'open' && !doomed ? ' open' : fate === 'aborted' || fate === 'outside' ? ' other' : '';\n\
const steps = `steps ${numberOf(transaction.first)} to ${numberOf(transaction.last)}`;\n\
const bar = drawn('g', { class: colourOf(core) }, drawn('title', {}, `core ${core}, ${steps}: ${fateText[fate]\
}`));\n\
if (turn > from) {\n\
bar.append(drawn('rect', { class: 'wait' + form, x: from, y, width: turn - from, height: barHeight, rx: radius \
}));\n\
}\n\
if (doomed) {\n\
const width = Math.max(1, to - turn);\n\
bar.append(drawn('rect', { class: 'doomed', x: turn, y, width, height: barHeight, rx: Math.min(radius, 3) }));\n\
}\n\
return bar;\n\
}\n\
const gapOfCells = () => scale.cell > 8 ? 1.5 : scale.cell > 4 ? .5 : 0;\n\
const beginnings = { p: '', l: 'first half: ', i: 'inside: ', b: 'begins: ', c: 'commits: ', s: 'stops: ' };\n\
function cellTitle(step) {\n\
const [core, kind] = run.steps[step - 1];\n\
const alone = { a: 'aborts', e: 'aborts', z: 'has stopped', d: 'its oldest pending store reaches memory' }[kin\
d];\n\
const did = alone || beginnings[kind] + written(addresses[step]);\n\
return `step ${numberOf(step)}: core ${core}, ${did}${reasonOf(step) ? ': ' + reasonOf(step) : ''}`;\n\
}\n\
const isConflict = step => kindOf(step) === 'a' && /^conflict/.test(reasonOf(step));\n\
function cellClass(step) {\n\
const kind = kindOf(step);\n\
if ('bic'.includes(kind)) return 'in';\n\
if (kind === 'e') return 'abort-outside';\n\
if (kind === 'a') return isConflict(step) ? 'abort' : 'abort-other';\n\
return kind === 's' ? 'stop' : 'out';\n\
}\n\
const fitting = (text, width) => text.length * 7.3 + 8 <= width\n\
? text : text.replace(/^lock /, '').split(' ')[0].slice(0, Math.floor(width / 7.6));\n\
const isLong = () => scale.cell >= 46;\n\
function stopLabel(step) {\n\
if (!isLong()) return scale.cell >= 15 ? '\\u25a0' : '';\n\
return (moreOf(step).q || 'stop').replace(/^stop(ped)?[: ]/, '').slice(0, 9);\n\
}\n\
function cellLabel(step) {\n\
const kind = kindOf(step), width = scale.cell;\n\
if (kind === 'e') return width >= 74 ? '\\u2717 ' + moreOf(step).e : width >= 11 ? '\\u2717' : '';\n\
if (kind === 'a') return isLong() ? '\\u2717 abort' : width >= 11 ? '\\u2717' : '';\n\
if (kind === 'c') return width >= 66 ? '\\u2713 commit' : width >= 11 ? '\\u2713' : '';\n\
if (kind === 's') return stopLabel(step);\n\
if (kind === 'd') return isLong() ? '\\u2193 drain' : width >= 11 ? '\\u2193' : '';\n\
if (isLong() && kind !== 'z') return fitting(written(addresses[step]), width);\n\
return kind === 'b' && width >= 15 ? '(' : '';\n\
}\n\
const labelClass = kind => 'bic'.includes(kind) ? 'on'\n\
: kind === 'a' ? 'abort-text' : kind === 'e' ? 'outside-text' : kind === 's' ? 'stop-text' : '';\n\
function cellHeight(kind) {\n\
if ('bicae'.includes(kind)) return barHeight;\n\
return isLong() ? barHeight * .72 : Math.min(barHeight * .55, 12);\n\
}\n\
function stepCell(step) {\n\
const [core, kind] = run.steps[step - 1], y = middleOf(core), height = cellHeight(kind), gap = gapOfCells();\n\
const cell = drawn('g', { class: colourOf(core) }, drawn('title', {}, cellTitle(step)));\n\
if (kind !== 'z') {\n\
const width = Math.max(.8, scale.cell - 2 * gap), x = leftOf(step) + gap;\n\
const rx = scale.cell > 8 ? 4 : 0;\n\
cell.append(drawn('rect', { class: cellClass(step), x, y: y - height / 2, width, height, rx }));\n\
}\n\
const text = cellLabel(step), x = leftOf(step) + scale.cell / 2;\n\
if (text) cell.append(drawn('text', { class: 'mid ' + labelClass(kind), x, y: y + 4.5 }, text));\n\
return cell;\n\
}\n\
function arrow(doomed) {\n\
const { step, by, victim, line, isWrite } = doomed, isDown = victim > by, turn = isDown ? 1 : -1;\n\
const x = leftOf(step) + scale.cell / 2;\n\
const from = middleOf(by) + turn * barHeight / 2, to = middleOf(victim) - turn * (barHeight / 2 + 1);\n\
const did = `core ${by} ${isWrite ? 'writes' : 'reads'} ${lineText(line)}`;\n\
const title = `step ${numberOf(step)}: ${did}: core ${victim} is doomed`;\n\
return drawn('g', {}, drawn('title', {}, title), drawn('path', { class: 'halo', d: `M${x} ${from}V${to}` }),\n\
drawn('circle', { class: 'origin', cx: x, cy: from, r: 4 }),\n\
drawn('path', { class: 'arrow', d: `M${x} ${from}V${to}` }));\n\
}\n\
function arrowLabel({ step, by, victim, line }, used) {\n\
const text = `line ${line.toString(16)} ${lineName(line)}`.slice(0, 26), wide = text.length * 7.1 + 14;\n\
const x = leftOf(step) + scale.cell / 2;\n\
const y = middleOf(victim) + (victim > by ? -1 : 1) * rowHeight / 2 + 4;\n\
const isTaken = used.some(other => Math.abs(other.y - y) < 12 && x - wide < other.x && other.x - wide < x);\n\
if (scale.cell < 12 || isTaken) return null;\n\
used.push({ x, y });\n\
const isLeft = x - wide > scale.labels, anchor = isLeft ? 'end' : 'start';\n\
return drawn('text', { class: 'arrow-label', x: isLeft ? x - 8 : x + 8, y, 'text-anchor': anchor }, text);\n\
}\n\
function drawArrows(first, last) {\n\
const used = [], span = doomed => Math.abs(doomed.victim - doomed.by);\n\
const here = dooms.filter(({ step }) => step >= first && step <= last).sort((a, b) => span(b) - span(a));\n\
arrows = here.map(doomed => {\n\
const made = arrow(doomed), label = arrowLabel(doomed, used);\n\
if (label) made.append(label);\n\
return { step: doomed.step, made, shown: '' };\n\
});\n\
}\n\
function laneSegment(index, [from, value], to, y) {\n\
const name = run.show[index][0], text = numberText(value), last = scale.first + scale.shown;\n\
const left = Math.max(leftOf(from), scale.labels);\n\
const right = Math.min(leftOf(to) + scale.cell, leftOf(last) + scale.cell);\n\
const width = Math.max(1, right - left - 1), height = scale.lane - 6;\n\
const segment = drawn('g', {},\n\
drawn('title', {}, `${name} = ${text} (${hex(value)}), steps ${numberOf(from)} to ${numberOf(to)}`),\n\
drawn('rect', { class: 'segment', x: left, y: y + 1, width, height, rx: 3 }));\n\
if (from && leftOf(from) >= scale.labels) {\n\
segment.append(drawn('g', { class: colourOf(run.steps[from - 1][0]) },\n\
drawn('rect', { class: 'in', x: left, y: y + 1, width: Math.min(5, width), height, rx: 2 })));\n\
}\n\
if (width > text.length * 7.3 + 9) segment.append(drawn('text', { x: left + 8, y: y + 15 }, text));\n\
return segment;\n\
}\n\
function lane(index, first, last) {\n\
const y = scale.top + coreCount * rowHeight + 4 + index * scale.lane, list = values[index], name = run.show[in\
dex][0];\n\
const short = name.slice(0, Math.floor((scale.labels - 6) / 7.3));\n\
const made = [drawn('text', { class: 'lab', x: 0, y: y + 15 }, short, drawn('title', {}, name))];\n\
list.forEach((entry, at) => {\n\
const to = at + 1 < list.length ? list[at + 1][0] - 1 : stepCount;\n\
if (to >= first && entry[0] <= last) made.push(laneSegment(index, entry, to, y));\n\
});\n\
return made;\n\
}\n\
function noteMark(step) {\n\
const x = leftOf(step) + scale.cell / 2 - 6;\n\
return drawn('path', { class: 'note-mark', d: `M${x} 17h12l-6 8z` }, drawn('title', {}, 'note: ' + notes.get(s\
tep)));\n\
}\n\
const cursorParts = height => [\n\
drawn('rect', { class: 'future', id: 'later', y: scale.top - 6, height: height - scale.top + 6 }),\n\
...arrows.map(one => one.made),\n\
drawn('rect', { class: 'cursor', id: 'cursor', y: 17, height: height - 19, rx: 4 }),\n\
drawn('rect', { class: 'flag', id: 'flag', y: 0, height: 18, rx: 4 }),\n\
drawn('text', { class: 'flag-text', id: 'flag-text', y: 13 }),\n\
];\n\
function drawTimeline() {\n\
const height = scale.top + coreCount * rowHeight + laneCount * scale.lane + 10;\n\
const first = scale.first + 1, last = Math.min(stepCount, scale.first + scale.shown), parts = [definitions()];\n\
parts.push(...ticks(first, last));\n\
for (let core = 0; core < coreCount; core++) parts.push(...coreLabel(core));\n\
for (const list of transactionsOf) {\n\
for (const one of list) if (one.last >= first && one.first <= last) parts.push(transactionBar(one, first, last\
));\n\
}\n\
for (let step = first; step <= last; step++) parts.push(stepCell(step));\n\
drawArrows(first, last);\n\
for (let index = 0; index < laneCount; index++) parts.push(...lane(index, first, last));\n\
for (const step of notes.keys()) if (step >= first && step <= last) parts.push(noteMark(step));\n\
parts.push(...cursorParts(height));\n\
byId('timeline').setAttribute('viewBox', `0 0 ${scale.width} ${height}`);\n\
byId('timeline').setAttribute('height', height);\n\
byId('timeline').replaceChildren(...parts);\n\
drawOverview();\n\
moveCursor();\n\
}\n\
function setAll(made, attributes) {\n\
for (const name in attributes) made.setAttribute(name, attributes[name]);\n\
}\n\
function moveCursor() {\n\
const { step, future } = view;\n\
if (!byId('cursor')) return;\n\
const x = step ? leftOf(step) : scale.labels - 3, width = step ? Math.max(scale.cell, 2) : 3;\n\
const text = String(numberOf(step)), flag = text.length * 8 + 12;\n\
const middle = inRange(x + width / 2, flag / 2, scale.width - flag / 2);\n\
setAll(byId('cursor'), { x, width });\n\
setAll(byId('flag'), { x: middle - flag / 2, width: flag });\n\
setAll(byId('flag-text'), { x: middle });\n\
byId('flag-text').textContent = text;\n\
const opacity = { dim: .62, show: 0, hide: 1 }[future];\n\
setAll(byId('later'), { x: x + width, width: Math.max(0, scale.width - x - width + 9), 'fill-opacity': opacity \
});\n\
for (const one of arrows) {\n\
const wanted = one.step > step ? 'later-' + future : '';\n\
if (wanted !== one.shown) one.made.setAttribute('class', one.shown = wanted);\n\
}\n\
const last = numberOf(Math.min(stepCount, scale.first + scale.shown));\n\
const shown = `steps ${numberOf(scale.first + 1)} to ${last}`;\n\
byId('timeline').setAttribute('aria-label', `Timeline of ${coreCount} cores, ${shown} `\n\
+ `of ${numberOf(stepCount)}; the cursor is at step ${text}. The events are listed below.`);\n\
}\n\
let ground = null;\n\
const stripOf = step => (step - 1) / stepCount * scale.width;\n\
function colours() {\n\
const style = getComputedStyle(document.documentElement), probe = element('i');\n\
document.body.append(probe);\n\
const cores = run.opening.map((_, core) => {\n\
probe.className = colourOf(core);\n\
return getComputedStyle(probe).getPropertyValue('--k');\n\
});\n\
probe.remove();\n\
return { cores, named: name => style.getPropertyValue('--' + name).trim() };\n\
}\n\
const stripRow = coreCount > 8 ? 3 : coreCount > 4 ? 6 : 9;\n\
function paintGround(height, ratio, key) {\n\
const canvas = document.createElement('canvas'), { cores, named } = colours();\n\
canvas.width = scale.width * ratio;\n\
canvas.height = height * ratio;\n\
const pen = canvas.getContext('2d');\n\
pen.scale(ratio, ratio);\n\
pen.fillStyle = named('paper');\n\
pen.fillRect(0, 0, scale.width, height);\n\
for (const { core, first, last, fate } of transactions) {\n\
pen.fillStyle = cores[core];\n\
pen.globalAlpha = fate === 'committed' ? 1 : .35;\n\
pen.fillRect(stripOf(first), core * stripRow + .5, Math.max(1, stripOf(last + 1) - stripOf(first)), stripRow - \
1);\n\
}\n\
pen.globalAlpha = .75;\n\
pen.fillStyle = named('bad');\n\
for (const { step } of dooms) pen.fillRect(stripOf(step), coreCount * stripRow + 2, 1, 6);\n\
return { canvas, key, paper: named('paper'), ink: named('ink') };\n\
}\n\
function drawOverview() {\n\
const canvas = byId('overview');\n\
canvas.hidden = isWhole();\n\
if (isWhole()) return;\n\
const ratio = window.devicePixelRatio || 1, height = coreCount * stripRow + 8;\n\
const key = [scale.width, ratio, document.documentElement.dataset.theme].join();\n\
if (!ground || ground.key !== key) {\n\
ground = paintGround(height, ratio, key);\n\
canvas.width = scale.width * ratio;\n\
canvas.height = height * ratio;\n\
canvas.style.height = height + 'px';\n\
}\n\
const pen = canvas.getContext('2d');\n\
pen.setTransform(1, 0, 0, 1, 0, 0);\n\
pen.drawImage(ground.canvas, 0, 0);\n\
pen.scale(ratio, ratio);\n\
if (view.future === 'hide') {\n\
pen.fillStyle = ground.paper;\n\
pen.fillRect(stripOf(view.step + 1), 0, scale.width, height);\n\
}\n\
pen.strokeStyle = pen.fillStyle = ground.ink;\n\
pen.lineWidth = 2;\n\
pen.strokeRect(stripOf(scale.first + 1), 1, Math.max(4, scale.shown / stepCount * scale.width), height - 2);\n\
pen.fillRect(stripOf(view.step || 1) - 1, 0, 2.5, height);\n\
}\n\
const rows = [];\n\
const rowAddress = new Map(run.at.map(([address, row]) => [row, address]));\n\
const lineNumbers = new Map((run.sources || []).flatMap(\n\
([first, count]) => Array.from({ length: count }, (_, index) => [first + index, index + 1])));\n\
const sourceParts = /^(\\s*(?:[\\w.]+:|[^\\s;]+:(?=$)))?((?:[^;'\"]|'[^']*'|\"[^\"]*\")*)(;.*)?$/s;\n\
function sourceText(line) {\n\
const text = element('span', 'text'), parts = sourceParts.exec(line);\n\
if (!parts) return element('span', 'text', line);\n\
if (parts[1]) text.append(element('span', 'label', parts[1]));\n\
const [, space, instruction] = /^(\\s*)(.*?)$/s.exec(parts[2] || '');\n\
text.append(space, element('span', 'instruction', instruction));\n\
if (parts[3]) text.append(element('span', 'comment', parts[3]));\n\
return text;\n\
}\n\
function lineOfSource(line) {\n\
const [, space, code] = /^(\\s*)(.*)$/s.exec(line);\n\
return element('span', 'text', space, element('span', 'instruction', code));\n\
}\n\
function listedText(line, row) {\n\
if (lineNumbers.has(row)) return lineOfSource(line);\n\
if (rowAddress.has(row)) return element('span', 'text', '  ', element('span', 'instruction', line.slice(10)));\n\
return element('span', 'text', element('span', 'label', line || '\\u22ee'));\n\
}\n\
function rowNumber(line, row) {\n\
if (isSource) return String(row + 1);\n\
if (lineNumbers.has(row)) return String(lineNumbers.get(row));\n\
return rowAddress.has(row) ? line.slice(0, 8).replace(/^0+(?=.{3})/, '') : '';\n\
}\n\
function buildProgram() {\n\
byId('source').replaceChildren(...run.text.map((line, index) => {\n\
const marks = element('span', 'marks'), text = isSource ? sourceText(line) : listedText(line, index);\n\
const row = element('div', 'row', marks, element('span', 'number', rowNumber(line, index)), text);\n\
rows.push({ row, marks });\n\
return row;\n\
}));\n\
}\n\
let marked = new Map();\n\
const nothing = { marks: [], classes: 'row' };\n\
function wantRow(wanted, address) {\n\
const instruction = instructions.get(address);\n\
if (!instruction) return null;\n\
const found = rows[instruction.row];\n\
if (!wanted.has(found)) wanted.set(found, { marks: [], classes: 'row' });\n\
return found;\n\
}\n\
function addMark(wanted, address, key, make) {\n\
const found = wantRow(wanted, address);\n\
if (found) wanted.get(found).marks.push([key, make]);\n\
}\n\
function addClass(wanted, address, classes) {\n\
const found = wantRow(wanted, address);\n\
if (found) wanted.get(found).classes += ' ' + classes;\n\
return found;\n\
}\n\
function fallbackMark(number) {\n\
const mark = titled(badge(number, 'back'), `core ${number} falls back to here`);\n\
mark.prepend('\\u21a9');\n\
return mark;\n\
}\n\
function nextMark(core, number) {\n\
const mark = badge(number, isDoomed(core) ? 'doomed' : isStopped(core) ? 'off' : '');\n\
if (isDoomed(core)) mark.prepend('\\u2717');\n\
return mark;\n\
}\n\
function wantMarks(wanted) {\n\
view.state.cores.forEach((core, number) => {\n\
const fallback = core.base && fallbackOf(core.base[EIP]);\n\
if (core.base && fallback !== null) addMark(wanted, fallback, 'back ' + number, () => fallbackMark(number));\n\
});\n\
view.state.cores.forEach((core, number) => {\n\
const key = `next ${number} ${isDoomed(core)} ${isStopped(core)}`;\n\
addMark(wanted, core.registers[EIP], key, () => nextMark(core, number));\n\
});\n\
}\n\
function seek(box, child) {\n\
if (!child) return;\n\
const top = child.offsetTop, isSeen = top >= box.scrollTop + 20 && top <= box.scrollTop + box.clientHeight - 6\
0;\n\
if (!isSeen) box.scrollTop = top - box.clientHeight / 2;\n\
}\n\
function showRow({ row, marks }, wanted) {\n\
setClass(row, wanted.classes);\n\
refill(marks, wanted.marks);\n\
}\n\
function showProgram() {\n\
const wanted = new Map();\n\
wantMarks(wanted);\n\
let target = wanted.keys().next().value;\n\
if (view.step) {\n\
const [number, kind] = run.steps[view.step - 1], colour = colourOf(number);\n\
const next = addClass(wanted, view.state.cores[number].registers[EIP], 'at ' + colour);\n\
const did = isAbort(kind) || kind === 'd' ? null : addClass(wanted, addresses[view.step], 'did ' + colour);\n\
target = did || next || target;\n\
}\n\
for (const found of marked.keys()) if (!wanted.has(found)) showRow(found, nothing);\n\
for (const [found, one] of wanted) showRow(found, one);\n\
marked = wanted;\n\
return target && target.row;\n\
}\n\
const isFew = coreCount <= 4;\n\
const shortHex = value => hex(value).replace(/^0+(?=.)/, '');\n\
function digits(value) {\n\
const text = hex(value), zeros = /^0*(?=.)/.exec(text)[0];\n\
return [zeros && element('span', 'zeros', zeros), text.slice(zeros.length)];\n\
}\n\
function statePill(core) {\n\
if (isOpen(core)) {\n\
const depth = Number(core.state.replace(/\\D/g, '')) || 1;\n\
return element('span', 'pill inside',\n\
`in a transaction${depth > 1 ? ', depth ' + depth : ''}, since step ${numberOf(core.begun)}`);\n\
}\n\
if (isDoomed(core)) return element('span', 'pill doomed', `\\u2717 doomed at step ${numberOf(core.doom.step)}`\
);\n\
if (isStopped(core)) return element('span', 'pill stopped', 'stopped: ' + stopText(core));\n\
return element('span', 'pill', core.state === 'mid' ? 'between two halves' : 'outside');\n\
}\n\
const flagsText = flags => flagBits.filter(([, bit]) => flags & bit).map(([name]) => name).join(' ') || 'all c\
lear';\n\
function putBack(core, register) {\n\
if (!isOpen(core) || !core.base) return '';\n\
if (register === EAX) return 'the status';\n\
if (register === EIP) {\n\
const fallback = fallbackOf(core.base[EIP]);\n\
return fallback === null ? '' : place(fallback);\n\
}\n\
if (core.base[register] === core.registers[register]) return '';\n\
return register === FLAGS ? flagsText(core.base[FLAGS]) : shortHex(core.base[register]);\n\
}\n\
function registerValue(core, register) {\n\
const value = core.registers[register];\n\
if (register !== FLAGS) {\n\
const made = element('dd', '', ...digits(value));\n\
made.dataset.value = hex(value);\n\
return titled(made, `${value}${register === EIP ? ' ' + nameNear(value) : ''}`);\n\
}\n\
const flags = flagBits.map(([name, bit]) => element('b', value & bit ? 'on' : '', name));\n\
const made = element('dd', 'flags', ...flags, element('span', 'hidden', `flags ${hex(value, 3)}`));\n\
made.dataset.value = hex(value, 3);\n\
return titled(made, hex(value, 3));\n\
}\n\
function registerRow(core, old, register, back) {\n\
const isChanged = core.registers[register] !== old.registers[register];\n\
return element('div', isChanged ? 'changed' : '', element('dt', '', registerNames[register]),\n\
registerValue(core, register),\n\
isChanged && register < EIP && element('span', 'was', 'was ' + shortHex(old.registers[register])),\n\
back && titled(element('span', 'back', isFew ? '\\u21a9 ' + back : '\\u21a9'), 'an abort puts back: ' + back))\
;\n\
}\n\
function lineChip([line, since], className, isLost) {\n\
const name = lineName(line), form = isLost ? 'lost' : since === view.step ? 'new' : '';\n\
const chip = element('span', `chip ${className} ${form}`, line.toString(16) + (name ? ' ' + name : ''));\n\
const range = `addresses ${hex(line * 64)} to ${hex(line * 64 + 63)}`;\n\
return titled(chip, `line ${line.toString(16)}, ${range}, since step ${numberOf(since)}`);\n\
}\n\
function lineChips(set, className, isLost) {\n\
if (!set.size) return [element('span', 'quiet', '\\u2013')];\n\
const chips = [...set].sort((a, b) => a[0] - b[0]).slice(0, 24).map(entry => lineChip(entry, className, isLost\
));\n\
return set.size > 24 ? [...chips, element('span', 'quiet', `and ${set.size - 24} more`)] : chips;\n\
}\n\
function privateChips(core, isLost) {\n\
const words = [...new Set([...core.stored.keys()].map(address => address - address % 4))].sort((a, b) => a - b\
);\n\
if (!words.length) return [element('span', 'quiet', '\\u2013')];\n\
const chips = words.slice(0, 12).map(address => element('span', 'chip written' + (isLost ? ' lost' : ''),\n\
`${spot(address)} = ${numberText(wordAt(view.state, address, core))}`));\n\
return words.length > 12 ? [...chips, element('span', 'quiet', `and ${words.length - 12} more`)] : chips;\n\
}\n\
function setKey(core) {\n\
const from = isDoomed(core) ? core.lost : core, isNew = ([, since]) => since === view.step;\n\
const lines = [from.reads, from.writes].map(set => [...set].map(one => one.join(isNew(one) ? '*' : '-')).join(\
));\n\
const words = [...from.stored].map(([address, byte]) => `${address}=${byte}`).join();\n\
return [core.state, isHexShown, ...lines, words, words && memoryKey(from)].join('|');\n\
}\n\
const memoryKey = from =>\n\
[...from.stored.keys()].map(address => wordAt(view.state, address - address % 4, from)).join();\n\
function setList(core) {\n\
const isLost = isDoomed(core), from = isLost ? core.lost : core, [mostReads, mostWrites] = run.limits;\n\
const list = element('dl', 'sets',\n\
element('dt', '', isLost ? 'had read' : `reads ${core.reads.size}/${mostReads}`),\n\
element('dd', '', ...lineChips(from.reads, '', isLost)),\n\
element('dt', '', isLost ? 'had written' : `writes ${core.writes.size}/${mostWrites}`),\n\
element('dd', '', ...lineChips(from.writes, 'written', isLost)));\n\
if (isFew || !isLost && core.stored.size) {\n\
list.append(element('dt', '', isLost ? 'had stored' : 'private'), element('dd', '', ...privateChips(from, isLo\
st)));\n\
}\n\
return list;\n\
}\n\
function nextLine(core) {\n\
if (isStopped(core)) return element('p', 'next', 'no further step');\n\
if (isDoomed(core)) return element('p', 'next', element('small', '', 'next: '), 'the abort it is owed');\n\
const at = core.registers[EIP];\n\
return element('p', 'next', element('small', '', 'next: '), written(at), element('small', '', '  ' + nameNear(\
at)));\n\
}\n\
function pendingLine([address, count, value]) {\n\
const line = element('p', 'pending', `pending ${hex(address)} ${hex(value, 2 * count)}`);\n\
return titled(line, `${numberText(value)} to ${spot(address)}: no other core sees it yet`);\n\
}\n\
const pendingLines = core =>\n\
core.pending.map((store, index) => [[index, isHexShown, ...store].join(), () => pendingLine(store)]);\n\
const setText = set => [...set.keys()].sort((a, b) => a - b).map(line => line.toString(16)).join(' ') || '-';\n\
const cards = [];\n\
function coreCard(number) {\n\
const state = element('span', 'state'), next = element('div'), registers = element('dl', 'registers');\n\
const pending = element('div'), sets = element('div'), body = element('div', 'body', registers, sets);\n\
const head = element('h3', '', badge(number), 'core ' + number, state);\n\
return { card: element('article', '', head, next, pending, body), state, next, pending, registers, sets };\n\
}\n\
function showRegisters(box, core, old) {\n\
refill(box, registerNames.map((name, register) => {\n\
const back = putBack(core, register), values = [core.registers[register], old.registers[register]];\n\
return [[name, ...values, back].join('|'), () => registerRow(core, old, register, back)];\n\
}));\n\
}\n\
function showCore(core, number) {\n\
const didStep = view.step && run.steps[view.step - 1][0] === number, old = view.before.cores[number];\n\
const { card, state, next, pending, registers, sets } = cards[number];\n\
setClass(card, `card core ${colourOf(number)} ${didStep ? 'did' : ''}`);\n\
refill(state, [[[core.state, core.begun, core.doom && core.doom.step].join(), () => statePill(core)]]);\n\
refill(next, [[[core.state, core.registers[EIP]].join(), () => nextLine(core)]]);\n\
refill(pending, pendingLines(core));\n\
showRegisters(registers, core, old);\n\
refill(sets, isFew || isOpen(core) || isDoomed(core) ? [[setKey(core), () => setList(core)]] : []);\n\
const reads = setText(core.reads), writes = setText(core.writes);\n\
Object.assign(card.dataset, { core: number, state: core.state, reads, writes });\n\
}\n\
function showCores() {\n\
if (!cards.length) {\n\
byId('cores').classList.toggle('few', isFew);\n\
cards.push(...view.state.cores.map((_, number) => coreCard(number)));\n\
byId('cores').append(...cards.map(({ card }) => card));\n\
}\n\
view.state.cores.forEach(showCore);\n\
}\n\
function variable([name, address]) {\n\
const value = wordAt(view.state, address), old = wordAt(view.before, address);\n\
const own = view.state.cores.flatMap((core, number) => hasStored(core, address)\n\
? [' ', badge(number), ' sees ' + numberText(wordAt(view.state, address, core))] : []);\n\
const made = element('li', 'variable', element('span', 'name', name),\n\
element('span', 'value' + (value !== old ? ' changed' : ''), numberText(value)),\n\
value !== old && element('span', 'quiet', 'was ' + numberText(old)),\n\
own.length > 0 && element('span', 'own', ...own.slice(1)));\n\
Object.assign(made.dataset, { at: address, value: hex(value) });\n\
return titled(made, `${hex(address)}, line ${(address >>> 6).toString(16)}; in memory ${hex(value)}`);\n\
}\n\
function variableKey([, address], index) {\n\
const own = view.state.cores.map(core => hasStored(core, address) ? wordAt(view.state, address, core) : '');\n\
return [index, wordAt(view.state, address), wordAt(view.before, address), isHexShown, ...own].join();\n\
}\n\
function showVariables() {\n\
byId('vars').hidden = !run.show.length;\n\
refill(byId('variables'), run.show.map((one, index) => [variableKey(one, index), () => variable(one)]));\n\
}\n\
function partsShown(core) {\n\
if (!isDoomed(core)) return core;\n\
return core.doom.step === view.step ? core.lost : null;\n\
}\n\
const READ = 1, WRITTEN = 2;\n\
function lineUses(more) {\n\
const uses = new Map();\n\
view.state.cores.forEach((core, number) => {\n\
const parts = partsShown(core);\n\
if (!parts) return;\n\
for (const [set, bit] of [[parts.reads, READ], [parts.writes, WRITTEN]]) {\n\
for (const line of set.keys()) {\n\
if (!uses.has(line)) uses.set(line, new Map());\n\
uses.get(line).set(number, (uses.get(line).get(number) || 0) | bit);\n\
}\n\
}\n\
});\n\
for (const list of [more.l, more.t, more.m, more.s && more.s.slice(0, 2)]) {\n\
eachPair(list, address => {\n\
if (!uses.has(address >>> 6) && !isInCode(address)) uses.set(address >>> 6, new Map());\n\
});\n\
}\n\
return uses;\n\
}\n\
function wordsWritten(list) {\n\
const words = new Set();\n\
eachPair(list, (address, digits) => {\n\
for (let i = 0; i < digits.length / 2; i++) words.add(address + i - (address + i) % 4);\n\
});\n\
return words;\n\
}\n\
const useText = ['', 'read', 'written', 'read and written'];\n\
function lineHead(line, cores) {\n\
const head = element('p', '', element('b', 'mono', 'line ' + line.toString(16)),\n\
element('span', 'mono quiet', hex(line * 64)), element('span', 'name', lineName(line)));\n\
for (const [number, bits] of [...cores].sort((a, b) => a[0] - b[0])) {\n\
const letters = (bits & READ ? 'R' : '') + (bits & WRITTEN ? 'W' : '');\n\
const form = `${bits & WRITTEN ? 'written' : ''} ${isDoomed(view.state.cores[number]) ? 'lost' : ''}`;\n\
head.append(element('span', `chip ${colourOf(number)} ${form}`, badge(number), ' ' + letters,\n\
element('span', 'hidden', ' ' + useText[bits])));\n\
}\n\
if (!cores.size) head.append(element('span', 'quiet', 'in no set; touched by this step'));\n\
return head;\n\
}\n\
const wordNames = new Map();\n\
for (const [address, name] of labels) {\n\
const word = address - address % 4;\n\
if (!isInCode(address) && !wordNames.has(word)) wordNames.set(word, name + (address > word ? '+' : ''));\n\
}\n\
function wordAsSeen(address, writtenWords) {\n\
const value = wordAt(view.state, address), readers = [], own = [];\n\
const isChanged = writtenWords.has(address) || value !== wordAt(view.before, address);\n\
view.state.cores.forEach((core, number) => {\n\
const parts = partsShown(core);\n\
if (!parts) return;\n\
if (offsets.some(i => parts.loads.has(address + i))) readers.push(number);\n\
if (!hasStored(parts, address)) return;\n\
own.push([number, wordAt(view.state, address, parts), hasPrivate(parts, address) ? 'private to' : 'pending of'\
]);\n\
});\n\
return { address, value, isChanged, readers, own };\n\
}\n\
function privateWord([core, value, whose]) {\n\
const seen = element('span', `private ${colourOf(core)}`, hex(value));\n\
seen.dataset.core = core;\n\
return titled(seen, `${whose} core ${core}`);\n\
}\n\
function wordCell({ address, value, isChanged, readers, own }) {\n\
const name = wordNames.get(address) || '';\n\
const isEmpty = !value && !isChanged && !own.length && !readers.length && !name;\n\
const cell = element('div', `word ${isChanged ? 'changed' : ''} ${isEmpty ? 'empty' : ''}`,\n\
element('span', 'at', name || '+' + (address & 63).toString(16)), element('span', 'value', hex(value)),\n\
...own.map(privateWord), element('span', 'readers', ...readers.map(core => element('i', colourOf(core)))));\n\
cell.dataset.at = address;\n\
return titled(cell, `${hex(address)} ${place(address)}`);\n\
}\n\
function showWords(box, line, writtenWords) {\n\
refill(box, offsetsOfWords.map(offset => {\n\
const word = wordAsSeen(line * 64 + offset, writtenWords);\n\
return [[word.address, word.value, word.isChanged, word.readers, word.own].join('|'), () => wordCell(word)];\n\
}));\n\
}\n\
const offsetsOfWords = Array.from({ length: 16 }, (_, index) => index * 4);\n\
function doomingLine(by, [victim, , isWrite]) {\n\
return element('p', 'doomline', '\\u2717 ', badge(by), ` ${isWrite ? 'writes' : 'reads'} this line \\u2192 `,\n\
badge(victim), ' is doomed');\n\
}\n\
function showLine(box, line, cores, hits, writtenWords) {\n\
const by = view.step ? run.steps[view.step - 1][0] : 0;\n\
const isLost = [...cores.keys()].map(number => isDoomed(view.state.cores[number]));\n\
setClass(box, `line ${hits.length ? 'hit' : ''}`);\n\
const now = refill(box, [\n\
[['head', ...cores, ...isLost].join(), () => lineHead(line, cores)],\n\
...hits.map(hit => [['hit', by, ...hit].join(), () => doomingLine(by, hit)]),\n\
['words', () => element('div', 'words')],\n\
]);\n\
showWords(now.get('words'), line, writtenWords);\n\
}\n\
const mostLines = 10;\n\
const legendOfLines = 'A stripe below a word: loaded by the core of that colour. A filled value: stored, priva\
te until '\n\
+ `XEND${isBuffered ? ', or pending' : ''}. R, W: in the read set, in the write set.`;\n\
function showLines() {\n\
const more = view.step ? moreOf(view.step) : {}, uses = lineUses(more), writtenWords = wordsWritten(more.m);\n\
const hitsOf = line => (more.d || []).filter(hit => hit[1] === line), isHit = line => Number(hitsOf(line).leng\
th > 0);\n\
const lines = [...uses.keys()].sort((a, b) => isHit(b) - isHit(a) || a - b);\n\
const shown = lines.slice(0, mostLines), items = shown.map(line => ['line ' + line, () => element('div')]);\n\
if (lines.length > mostLines) {\n\
const others = lines.slice(mostLines, 60).map(line => line.toString(16)).join(' ');\n\
const text = `and ${lines.length - mostLines} more lines: ${others}`;\n\
items.push([text, () => element('p', 'quiet', text)]);\n\
}\n\
items.push(lines.length ? ['legend', () => element('p', 'legend', legendOfLines)]\n\
: ['none', () => element('p', 'quiet', 'No line is in a read set or write set, and this step touched no memory\
.')]);\n\
const now = refill(byId('set-body'), items);\n\
for (const line of shown) showLine(now.get('line ' + line), line, uses.get(line), hitsOf(line), writtenWords);\n\
}\n\
let eventKinds = [];\n\
const mostEvents = 24;\n\
function abortKinds() {\n\
const counts = new Map();\n\
for (const { step, kind } of events) {\n\
if (isAbort(kind)) counts.set(causeOf(step), (counts.get(causeOf(step)) || 0) + 1);\n\
}\n\
if (counts.size < 2) return [];\n\
return [...counts].map(([cause, count]) => ({\n\
value: 'abort-' + cause, name: `aborts: ${cause}`, count,\n\
has: event => isAbort(event.kind) && causeOf(event.step) === cause,\n\
}));\n\
}\n\
function buildEvents() {\n\
const count = test => events.filter(test).length;\n\
const kind = (value, name, has, number) => ({ value, name, has, count: number === undefined ? count(has) : num\
ber });\n\
eventKinds = [\n\
kind('all', 'all events', () => true, marks.length),\n\
kind('aborts', 'aborts', event => isAbort(event.kind)), ...abortKinds(),\n\
kind('conflicts', 'conflicts', event => event.dooms, dooms.length),\n\
kind('commits', 'commits', event => event.kind === 'c'), kind('stops', 'stops', event => event.kind === 's'),\n\
kind('notes', 'notes', () => false, notes.size),\n\
];\n\
const old = byId('which').value;\n\
byId('which').replaceChildren(...eventKinds.filter(one => one.count).map(one => {\n\
const option = element('option', '', `${one.name} (${one.count})`);\n\
option.value = one.value;\n\
return option;\n\
}));\n\
if (old) byId('which').value = old;\n\
}\n\
function eventsShown() {\n\
const kind = eventKinds.find(one => one.value === byId('which').value) || eventKinds[0];\n\
const found = new Map(events.filter(kind.has).map(event => [event.step, event]));\n\
if (kind.value === 'all' || kind.value === 'notes') {\n\
for (const step of notes.keys()) {\n\
if (found.has(step) || step > stepCount) continue;\n\
found.set(step, { step, kind: 'note', core: step ? run.steps[step - 1][0] : 0 });\n\
}\n\
}\n\
const list = [...found.values()].sort((a, b) => a.step - b.step);\n\
return view.future === 'hide' ? list.filter(event => event.step <= view.step) : list;\n\
}\n\
function eventHead({ step, kind }) {\n\
if (isAbort(kind)) return [element('span', 'cross', '\\u2717 aborted '), reasonOf(step)];\n\
if (kind === 'c') return ['\\u2713 committed'];\n\
if (kind === 's') return ['\\u25a0 stopped ' + reasonOf(step)];\n\
return kind === 'note' ? [] : [written(addresses[step])];\n\
}\n\
function eventButton(event) {\n\
const text = element('span', '', ...eventHead(event));\n\
for (const [victim, line, isWrite] of event.dooms || []) {\n\
const did = `${isWrite ? 'writes' : 'reads'} ${lineText(line)}`;\n\
text.append(element('span', 'cross', ` \\u2192 ${did}: core ${victim} doomed`));\n\
}\n\
if (notes.has(event.step)) text.append(element('span', '', ` \\u25bc ${notes.get(event.step)}`));\n\
const number = element('span', 'step', element('span', 'hidden', 'step '), String(numberOf(event.step)));\n\
const button = element('button', '', number, badge(event.core), text);\n\
button.type = 'button';\n\
button.dataset.step = event.step;\n\
return button;\n\
}\n\
function markCurrent(button, step) {\n\
const isHere = step === view.step;\n\
if (isHere === button.hasAttribute('aria-current')) return;\n\
if (isHere) button.setAttribute('aria-current', 'step'); else button.removeAttribute('aria-current');\n\
}\n\
function showEvents() {\n\
const list = eventsShown(), box = byId('list'), hadFocus = box.contains(document.activeElement);\n\
const found = list.findIndex(event => event.step >= view.step), index = found < 0 ? list.length : found;\n\
const from = inRange(index - 8, 0, Math.max(0, list.length - mostEvents)), part = list.slice(from, from + most\
Events);\n\
const now = refill(box, part.map(event => [eventKey(event), () => element('li', '', eventButton(event))]));\n\
const buttons = [...now.values()].map(item => item.firstChild);\n\
buttons.forEach((button, at) => markCurrent(button, part[at].step));\n\
const mark = buttons[inRange(index - from, 0, Math.max(0, part.length - 1))];\n\
if (mark && hadFocus) mark.focus({ preventScroll: true });\n\
byId('more').textContent = list.length > part.length\n\
? `${from + 1} to ${from + part.length} of ${list.length}, around this step` : list.length ? '' : 'none';\n\
return mark && mark.parentNode;\n\
}\n\
const eventKey = ({ step, kind }) => [step, kind, notes.get(step)].join();\n\
function seekEvent() {\n\
seek(byId('list'), showEvents());\n\
}\n\
function showStage() {\n\
const { step } = view, note = notes.get(step) || '';\n\
byId('told').className = 'told ' + (step ? colourOf(run.steps[step - 1][0]) : '');\n\
byId('count').replaceChildren(String(numberOf(step)), element('small', '', `of ${numberOf(stepCount)} steps`))\
;\n\
byId('say').replaceChildren(...sentence(step));\n\
byId('note').hidden = !note;\n\
byId('note').textContent = note;\n\
if (document.activeElement !== byId('my-note')) byId('my-note').value = note;\n\
byId('slide').value = step;\n\
byId('slide').setAttribute('aria-valuetext', `step ${numberOf(step)} of ${numberOf(stepCount)}`);\n\
if (document.activeElement !== byId('go')) byId('go').value = numberOf(step);\n\
for (const id of ['to-begin', 'event-back', 'step-back']) byId(id).disabled = step === 0;\n\
for (const id of ['step-on', 'event-on', 'to-end']) byId(id).disabled = step === stepCount;\n\
}\n\
function followCursor() {\n\
const { step } = view, last = stepCount - scale.shown, edge = Math.max(1, Math.floor(scale.shown * .12));\n\
const isEarly = step < scale.first + edge && scale.first > 0;\n\
const isLate = step > scale.first + scale.shown - edge && scale.first < last;\n\
if (isWhole() || !isEarly && !isLate) {\n\
moveCursor();\n\
drawOverview();\n\
return;\n\
}\n\
scale.first = inRange(Math.round(step - scale.shown * (isEarly ? .7 : .3)), 0, last);\n\
drawTimeline();\n\
}\n\
function show() {\n\
const { step } = view;\n\
view.before = stateAt(Math.max(0, step - 1));\n\
view.state = stateAt(step);\n\
showStage();\n\
followCursor();\n\
const row = showProgram();\n\
showCores();\n\
showVariables();\n\
showLines();\n\
const event = showEvents();\n\
seek(byId('source'), row);\n\
seek(byId('list'), event);\n\
document.documentElement.dataset.step = step;\n\
}\n\
let asked = 0, addressed = 0;\n\
function go(step, isQuiet) {\n\
const target = inRange(Math.round(step) || 0, 0, stepCount);\n\
if (target === view.step && view.state) return;\n\
view.step = target;\n\
if (!isQuiet) tellAddress();\n\
if (asked) return;\n\
asked = requestAnimationFrame(() => {\n\
asked = 0;\n\
show();\n\
});\n\
}\n\
const fromHash = () => new URLSearchParams(location.hash.slice(1));\n\
function tellAddress() {\n\
clearTimeout(addressed);\n\
addressed = setTimeout(() => {\n\
const words = fromHash();\n\
words.set('step', numberOf(view.step));\n\
try {\n\
history.replaceState(null, '', '#' + words.toString().replace(/%2C/g, ','));\n\
} catch (refused) { /* a frame without an address of its own */ }\n\
}, 150);\n\
}\n\
const eventFrom = direction => direction > 0\n\
? marks.find(step => step > view.step) ?? stepCount : marks.findLast(step => step < view.step) ?? 0;\n\
let timer = 0;\n\
function play(isOn) {\n\
clearInterval(timer);\n\
timer = 0;\n\
if (isOn && view.step >= stepCount) go(0);\n\
if (isOn) timer = setInterval(() => view.step >= stepCount ? play(false) : go(view.step + 1), +byId('speed').v\
alue);\n\
byId('play').lastElementChild.textContent = timer ? 'Pause' : 'Play';\n\
byId('say').setAttribute('aria-live', timer ? 'off' : 'polite'); // a reader would fall behind\n\
}\n\
const moves = {\n\
ArrowLeft: () => view.step - 1, ArrowRight: () => view.step + 1,\n\
ArrowUp: () => eventFrom(-1), ArrowDown: () => eventFrom(1),\n\
Home: () => 0, End: () => stepCount, PageUp: () => view.step - scale.shown, PageDown: () => view.step + scale.\
shown,\n\
};\n\
function isTaken(key, target) {\n\
if (target.matches('textarea, select, input[type=number]')) return true;\n\
return target.id === 'source' && /^(ArrowUp|ArrowDown|Page)/.test(key);\n\
}\n\
document.addEventListener('keydown', event => {\n\
const { key, target } = event;\n\
if (event.ctrlKey || event.metaKey || event.altKey || isTaken(key, target)) return;\n\
if (key === ' ') {\n\
if (target.matches('button')) return;\n\
play(!timer);\n\
} else if (moves[key]) {\n\
play(false);\n\
go(moves[key]());\n\
} else {\n\
return;\n\
}\n\
event.preventDefault();\n\
});\n\
const on = (id, event, call) => byId(id).addEventListener(event, call);\n\
const onClick = (id, move) => on(id, 'click', () => {\n\
play(false);\n\
go(move());\n\
});\n\
onClick('to-begin', moves.Home);\n\
onClick('event-back', moves.ArrowUp);\n\
onClick('step-back', moves.ArrowLeft);\n\
onClick('step-on', moves.ArrowRight);\n\
onClick('event-on', moves.ArrowDown);\n\
onClick('to-end', moves.End);\n\
on('play', 'click', () => play(!timer));\n\
on('speed', 'change', () => timer && play(true));\n\
on('slide', 'input', event => {\n\
play(false);\n\
go(+event.target.value);\n\
});\n\
on('go', 'change', event => go(+event.target.value - firstStep));\n\
on('which', 'change', seekEvent);\n\
on('list', 'click', event => {\n\
const button = event.target.closest('button');\n\
if (!button) return;\n\
play(false);\n\
go(+button.dataset.step);\n\
});\n\
let isByHand = false;\n\
addEventListener('pointerdown', () => { isByHand = true; }, true);\n\
addEventListener('keydown', () => { isByHand = false; }, true);\n\
addEventListener('change', event => { if (isByHand && event.target.matches('select')) event.target.blur(); });\n\
function center() {\n\
scale.first = isWhole() ? 0 : inRange(view.step - Math.round(scale.shown / 2), 0, stepCount - scale.shown);\n\
drawTimeline();\n\
}\n\
function zoomBy(change) {\n\
if (change > 0 || scale.cell > 2) zoom += change;\n\
layout();\n\
center();\n\
}\n\
on('zoom-in', 'click', () => zoomBy(1));\n\
on('zoom-out', 'click', () => zoomBy(-1));\n\
function scrub(id, stepOf) {\n\
const follow = event => {\n\
const box = byId(id).getBoundingClientRect();\n\
play(false);\n\
go(stepOf((event.clientX - box.left) / box.width));\n\
};\n\
on(id, 'pointerdown', follow);\n\
on(id, 'pointermove', event => { if (event.buttons & 1) follow(event); });\n\
}\n\
scrub('timeline', part => Math.floor((part * scale.width - scale.labels) / scale.cell) + 1 + scale.first);\n\
scrub('overview', part => part * stepCount + 1);\n\
on('future', 'change', event => {\n\
view.future = event.target.value;\n\
moveCursor();\n\
drawOverview();\n\
seekEvent();\n\
});\n\
on('base', 'click', () => {\n\
isHexShown = !isHexShown;\n\
byId('base').setAttribute('aria-pressed', isHexShown);\n\
drawTimeline();\n\
show();\n\
});\n\
function setTheme(name) {\n\
document.documentElement.dataset.theme = name;\n\
byId('theme').textContent = name === 'dark' ? 'Light' : 'Dark';\n\
if (view.state) drawOverview();\n\
}\n\
on('theme', 'click', () => setTheme(document.documentElement.dataset.theme === 'dark' ? 'light' : 'dark'));\n\
const darkScheme = matchMedia('(prefers-color-scheme: dark)');\n\
const themeAsked = () => /^(dark|light)$/.test(fromHash().get('theme') || '') ? fromHash().get('theme') : null\
;\n\
setTheme(themeAsked() || (darkScheme.matches ? 'dark' : 'light'));\n\
darkScheme.addEventListener('change', event => setTheme(event.matches ? 'dark' : 'light'));\n\
on('link', 'click', async () => {\n\
const words = fromHash();\n\
words.set('step', numberOf(view.step));\n\
const hash = '#' + words.toString().replace(/%2C/g, ',');\n\
try {\n\
await navigator.clipboard.writeText(location.href.replace(/#.*$/, '') + hash);\n\
byId('link').textContent = 'Copied';\n\
} catch (refused) {\n\
location.hash = hash;\n\
byId('link').textContent = 'In the address bar';\n\
}\n\
setTimeout(() => { byId('link').textContent = 'Copy link to this step'; }, 1500);\n\
});\n\
function tellOptions() {\n\
const quoted = text => `'${text.replace(/'/g, \"'\\\\''\")}'`;\n\
byId('options').value = [...notes].sort((a, b) => a[0] - b[0])\n\
.map(([step, text]) => `--note ${quoted(numberOf(step) + ':' + text)}`).join(' ');\n\
}\n\
on('my-note', 'input', event => {\n\
const text = event.target.value;\n\
if (text) notes.set(view.step, text); else notes.delete(view.step);\n\
gatherMarks();\n\
buildEvents();\n\
seekEvent();\n\
tellOptions();\n\
byId('note').hidden = !text;\n\
byId('note').textContent = text;\n\
drawTimeline();\n\
});\n\
const parts = ['time', 'code', 'cores', 'vars', 'sets', 'events'];\n\
function followAddress() {\n\
const words = fromHash(), wanted = words.get('parts'), future = words.get('future') || '';\n\
const isWanted = part => !wanted || wanted.split(',').includes(part);\n\
for (const part of parts) byId(part).classList.toggle('gone', !isWanted(part));\n\
document.documentElement.classList.toggle('framed', Boolean(wanted));\n\
document.documentElement.classList.toggle('nocode', !isWanted('code'));\n\
if (/^(dim|show|hide)$/.test(future)) byId('future').value = view.future = future;\n\
if (themeAsked() && view.state) setTheme(themeAsked());\n\
if (words.has('step') || !view.state) go(+(words.get('step') || firstStep) - firstStep, true);\n\
}\n\
addEventListener('hashchange', followAddress);\n\
let resized = 0;\n\
new ResizeObserver(() => {\n\
if (Math.abs(byId('time').clientWidth - 26 - scale.width) <= 1) return;\n\
cancelAnimationFrame(resized);\n\
resized = requestAnimationFrame(() => {\n\
layout();\n\
center();\n\
});\n\
}).observe(byId('time'));\n\
const key = (kids, text) => element('span', 'k0',\n\
drawn('svg', { viewBox: '0 0 34 16', width: 34, class: 'lines', 'aria-hidden': 'true' }, ...kids), text);\n\
const keyBox = (className, x = 1, width = 32) => drawn('rect', { class: className, x, y: 2, width, height: 12, \
rx: 3 });\n\
const keyText = (className, text) => drawn('text', { class: className + ' mid', x: 17, y: 12.5 }, text);\n\
function buildLegend() {\n\
const has = test => events.some(test);\n\
byId('legend').append(\n\
key([keyBox('in')], 'step inside'), key([keyBox('wait')], 'transaction waits'),\n\
key([keyBox('wait', 1, 16), keyBox('doomed', 16, 17)], 'doomed'),\n\
key([keyBox('abort', 9, 16), keyText('abort-text', '\\u2717')], 'abort by conflict'),\n\
key([keyBox('abort-other', 9, 16), keyText('abort-text', '\\u2717')], 'other abort'));\n\
if (has(event => event.kind === 'e')) {\n\
const drawing = [keyBox('abort-outside', 9, 16), keyText('outside-text', '\\u2717')];\n\
byId('legend').append(key(drawing, 'abort from outside'));\n\
}\n\
byId('legend').append(\n\
key([keyBox('in', 9, 16), keyText('on', '\\u2713')], 'commit'),\n\
key([drawn('rect', { class: 'out', x: 1, y: 4, width: 32, height: 8, rx: 2 })], 'step outside'),\n\
key([drawn('path', { class: 'arrow', d: 'M4 8H32' })], 'who dooms whom, by which line'));\n\
}\n\
const threeColumns = matchMedia('(min-width: 1560px)');\n\
function settle() {\n\
byId(threeColumns.matches ? 'right' : 'left').append(byId('events'));\n\
byId(threeColumns.matches ? 'right' : 'mid').append(byId('sets'));\n\
}\n\
threeColumns.addEventListener('change', settle);\n\
function tellRun() {\n\
byId('title').textContent = run.title;\n\
byId('command').textContent = run.command;\n\
byId('slide').max = stepCount;\n\
byId('go').min = firstStep;\n\
byId('go').max = numberOf(stepCount);\n\
byId('code-hint').append(element('span', 'badge back', '\\u21a9n'), ' falls back to here');\n\
byId('about').textContent = `Format ${run.format}; ${stepCount} steps of ${coreCount} cores, ${transactions.le\
ngth} `\n\
+ `transactions, ${dooms.length} conflicts. Nothing is loaded from elsewhere.`;\n\
byId('source').style.setProperty('--marks', coreCount <= 2 ? '4.6em' : coreCount <= 4 ? '6.2em' : '7.4em');\n\
document.documentElement.classList.toggle('noted', notes.size > 0);\n\
}\n\
settle();\n\
tellRun();\n\
gatherMarks();\n\
buildLegend();\n\
buildProgram();\n\
buildEvents();\n\
tellOptions();\n\
layout();\n\
followAddress();\n\
cancelAnimationFrame(asked);\n\
asked = 0;\n\
view.before = view.state = stateAt(view.step);\n\
center();\n\
show();\n\
document.documentElement.dataset.took = Math.round(performance.now() - begun);\n\
document.documentElement.dataset.ready = Math.round(performance.now());\n\
})();\n\
</script>\n\
</body>\n\
</html>\n";
