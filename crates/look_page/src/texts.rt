//! Written by `scripts/write-page`.

/// What stands before the data.
pub const BEFORE_DATA: &str = "<!DOCTYPE html>
<html lang=\"en\">
<head>
<meta charset=\"utf-8\">
<meta name=\"viewport\" content=\"width=device-width, initial-scale=1\">
<meta name=\"color-scheme\" content=\"light dark\">
<meta http-equiv=\"Content-Security-Policy\"
  content=\"default-src 'none'; style-src 'unsafe-inline'; script-src 'unsafe-inline';
    img-src data:\">
<link rel=\"icon\" href=\"data:,\">
<title>A run of a CHR program</title>
<style>
/* The look of the page of a run. Colours first, for light and for dark; then the parts. */
:root {
  color-scheme: light dark;
  --row: 24px;
  --inset: 8px;
  --sans: system-ui, -apple-system, \"Segoe UI\", Roboto, \"Noto Sans\", \"DejaVu Sans\", sans-serif;
  --mono: ui-monospace, \"SF Mono\", \"Cascadia Mono\", Menlo, Consolas, \"DejaVu Sans Mono\", monospace;
  --ground: #f4f5f7;
  --paper: #ffffff;
  --ink: #1c2128;
  --muted: #596270;
  --rule-line: #dfe3e8;
  --edge: #cfd5dc;
  --accent: #0b5cad;
  --accent-soft: #e3eefa;
  --hover: #f0f3f6;
  --plus: #166a34;
  --plus-soft: #e2f4e7;
  --minus: #a8232c;
  --minus-soft: #fbe9ea;
  --changed: #835200;
  --store-line: #2f6fb3;
  --store-fill: #dbe8f6;
  --stack-line: #7a55a8;
  --stack-fill: #ebe3f5;
  --tick: #4a5462;
  --mark: #a34a06;
  --head-0: #cfe3fb;
  --head-1: #fbdcb5;
  --head-2: #dcd3f8;
  --head-3: #c3ecd9;
  --head-4: #f9d2de;
  --head-5: #e8e6ad;
  --head-6: #c5e9f0;
  --head-7: #e6d5c4;
}

@media (prefers-color-scheme: dark) {
  :root {
    --ground: #14171b;
    --paper: #1c2026;
    --ink: #e4e7eb;
    --muted: #a0a9b5;
    --rule-line: #2d333b;
    --edge: #3c444e;
    --accent: #7db8f5;
    --accent-soft: #1d3550;
    --hover: #262c34;
    --plus: #74d492;
    --plus-soft: #17331f;
    --minus: #ff9a9a;
    --minus-soft: #3b1e21;
    --changed: #eebd66;
    --store-line: #6ba8ea;
    --store-fill: #20344b;
    --stack-line: #b795e3;
    --stack-fill: #322845;
    --tick: #b3bcc8;
    --mark: #f0a35c;
    --head-0: #1f4a78;
    --head-1: #6b430c;
    --head-2: #493b85;
    --head-3: #13553a;
    --head-4: #752f4a;
    --head-5: #55530f;
    --head-6: #135260;
    --head-7: #5a4632;
  }
}

* { box-sizing: border-box; scrollbar-width: thin; scrollbar-color: var(--edge) transparent; }
[hidden] { display: none !important; }

body {
  margin: 0;
  height: 100vh;
  min-height: 720px;
  display: grid;
  grid-template-rows: auto auto auto minmax(0, 1fr);
  gap: 12px;
  padding: 14px 20px 20px;
  background: var(--ground);
  color: var(--ink);
  font: 14px/1.45 var(--sans);
}

h1, h2, p, dl, dd, table { margin: 0; }
h1 { font-size: 18px; font-weight: 650; overflow-wrap: anywhere; }
h2 { font-size: 13px; font-weight: 650; }
.term, .code-line, .rows, .now .line { font-family: var(--mono); font-size: 13px; }
.muted, .count, .tag, .summary { color: var(--muted); }
.count { font-weight: 400; margin-left: 4px; font-variant-numeric: tabular-nums; }
.unseen { position: absolute; width: 1px; height: 1px; overflow: hidden; clip-path: inset(50%); }
.plus { color: var(--plus); }
.minus { color: var(--minus); }
.note { padding: 12px; }

/* Focus is always seen. */
:focus { outline: none; }
:focus-visible { outline: 2px solid var(--accent); outline-offset: 1px; }

/* Buttons and links */
.button {
  font: inherit;
  color: var(--ink);
  background: var(--paper);
  border: 1px solid var(--edge);
  border-radius: 6px;
  padding: 3px 10px;
  min-height: 28px;
  cursor: pointer;
  white-space: nowrap;
}
.button:hover { background: var(--hover); }
.button.icon { width: 34px; padding: 0; display: inline-grid; place-items: center; }
.button svg { width: 16px; height: 16px; fill: currentColor; stroke: currentColor; }
.link {
  font: inherit;
  color: var(--accent);
  background: none;
  border: 0;
  border-radius: 3px;
  padding: 0 1px;
  cursor: pointer;
  text-align: left;
  overflow-wrap: anywhere;
}
.link.term { font-family: var(--mono); font-size: 13px; }
.link:hover { text-decoration: underline; }
kbd {
  font: 12px/1 var(--mono);
  border: 1px solid var(--edge);
  border-radius: 4px;
  padding: 2px 5px;
  margin-left: 4px;
  background: var(--ground);
}

/* The heading */
.top { display: flex; align-items: baseline; gap: 4px 20px; min-width: 0; }
.top h1 { flex: none; max-width: 40%; }
.query { flex: 1; min-width: 0; overflow: hidden; text-overflow: ellipsis; white-space: nowrap; }
.summary { flex: none; font-variant-numeric: tabular-nums; }

/* The map and the slider: the names in one column, what they name in the other */
.course {
  background: var(--paper);
  border: 1px solid var(--rule-line);
  border-radius: 10px;
  padding: 8px 14px 6px;
}
.map, .slide { display: grid; grid-template-columns: 150px minmax(0, 1fr); gap: 6px; }
.lane {
  display: flex;
  justify-content: space-between;
  align-items: end;
  gap: 8px;
  padding-right: 4px;
  font-size: 12px;
  line-height: 15px;
  white-space: nowrap;
}
.lane > :first-child { overflow: hidden; text-overflow: ellipsis; }
.lane .muted { flex: none; font-variant-numeric: tabular-nums; }
.chart { position: relative; margin: 0 var(--inset); cursor: crosshair; touch-action: pan-y; }
canvas { display: block; width: 100%; }
.needle {
  position: absolute;
  top: 0;
  bottom: 0;
  width: 2px;
  margin-left: -1px;
  background: var(--accent);
  pointer-events: none;
}
.place { align-self: center; font-size: 13px; font-weight: 650; }
input[type=\"range\"] { width: 100%; margin: 0; height: 24px; accent-color: var(--accent); }

/* The line of the transition */
.now { display: flex; align-items: center; gap: 16px; min-width: 0; }
.moves { display: flex; gap: 4px; flex: none; }
.now .term, .now .link { font-size: inherit; }
.now .line {
  flex: 1;
  min-width: 0;
  font-size: 15px;
  line-height: 26px;
  white-space: pre;
  overflow: hidden;
  text-overflow: ellipsis;
}
.number { display: inline-block; color: var(--muted); }
.rows .number { min-width: calc(var(--digits) * 1ch); text-align: right; }
.ill { color: var(--minus); font-weight: 650; }

/* The panels */
main {
  display: grid;
  min-height: 0;
  gap: 12px;
  grid-template-columns: minmax(0, 11fr) minmax(0, 10fr) minmax(0, 9fr);
  grid-template-rows: fit-content(55%) minmax(240px, 1fr);
  grid-template-areas: \"program steps state\" \"detail steps state\";
}
.program { grid-area: program; min-height: 140px; }
.steps { grid-area: steps; }
.detail { grid-area: detail; }
.state { grid-area: state; display: flex; flex-direction: column; gap: 12px; min-height: 0; }
.panel {
  display: flex;
  flex-direction: column;
  min-width: 0;
  min-height: 0;
  background: var(--paper);
  border: 1px solid var(--rule-line);
  border-radius: 10px;
  overflow: hidden;
}
.panel h2 { padding: 8px 14px 6px; min-width: 0; }
.state .panel { --least: calc(40px + var(--row)); }
.state .panel { flex: var(--most, 1) 1 var(--least); min-height: var(--least); }

/* Lists of rows */
.rows {
  contain: strict;
  position: relative;
  flex: 1;
  min-height: 0;
  overflow: hidden auto;
  margin: 0 4px 4px;
  border-radius: 6px;
}
.rows:focus-visible { outline-offset: -2px; }
.rows[data-count=\"0\"]::before { content: \"none\"; padding: 0 24px; color: var(--muted); }
.spacer { position: relative; overflow: hidden; }
.row {
  contain: strict;
  position: absolute;
  inset: 0 0 auto;
  height: var(--row);
  line-height: var(--row);
  display: flex;
  gap: 6px;
  padding: 0 8px 0 4px;
  border-radius: 5px;
  white-space: pre;
  cursor: pointer;
}
.row:not(.head, .current):hover { background: var(--hover); }
.row .sign { flex: none; width: 14px; text-align: center; font-weight: 700; }
.row .cell { flex: 1; min-width: 0; overflow: hidden; text-overflow: ellipsis; }
.row .tag { flex: none; font: 12px/var(--row) var(--sans); }
.row.head .tag, .row.head .sign { color: inherit; }
.rows:focus-visible .row.cursor { box-shadow: inset 0 0 0 2px var(--accent); }
.row.chosen { box-shadow: inset 0 0 0 2px var(--mark); }
.row.came:not(.head) .sign { color: var(--plus); }
.row.went:not(.head) .sign { color: var(--minus); }
.row.went .cell { text-decoration: line-through; color: var(--muted); }
.row.went.head .cell { color: inherit; }
.row.current { background: var(--accent-soft); box-shadow: inset 3px 0 0 var(--accent); }
.row.firing .label { font-weight: 650; }
.row.marked .sign { color: var(--mark); }
.steps .kind { color: var(--muted); }
.steps .firing .kind { color: inherit; }

/* The colours of the heads */
.head { color: var(--ink); border-radius: 4px; }
span.head, .link.head { padding: 1px 4px; }
.head-0 { background: var(--head-0); }
.head-1 { background: var(--head-1); }
.head-2 { background: var(--head-2); }
.head-3 { background: var(--head-3); }
.head-4 { background: var(--head-4); }
.head-5 { background: var(--head-5); }
.head-6 { background: var(--head-6); }
.head-7 { background: var(--head-7); }

/* The program */
.text { flex: 1; min-height: 0; overflow: auto; padding-bottom: 8px; position: relative; }
.code-line { display: flex; line-height: 22px; border-left: 3px solid transparent; }
.code-line.has-rule { cursor: pointer; }
.code-line.has-rule:hover { background: var(--hover); }
.code { flex: 1; min-width: 0; padding-right: 12px; }
.code { white-space: pre-wrap; overflow-wrap: anywhere; }
.line-number {
  flex: none;
  align-self: start;
  line-height: inherit;
  width: 44px;
  padding: 0 12px 0 0;
  margin: 0;
  border: 0;
  background: none;
  color: var(--muted);
  font: inherit;
  text-align: right;
}
button.line-number { color: var(--accent); cursor: pointer; }
.comment { color: var(--muted); }
.code-line.tries { border-left-color: var(--edge); background: var(--hover); }
.code-line.fires { border-left-color: var(--accent); background: var(--accent-soft); }
.code-line.chosen { border-left-color: var(--mark); }
.code .head { padding: 1px 0; }

/* Search */
.search { display: flex; gap: 4px; align-items: center; padding: 0 8px 8px; }
.search input {
  flex: 1;
  min-width: 0;
  height: 28px;
  font: inherit;
  color: inherit;
  background: var(--ground);
  border: 1px solid var(--edge);
  border-radius: 6px;
  padding: 0 8px;
}
.search input::placeholder { color: var(--muted); opacity: 1; }
.found { min-width: 2ch; padding: 0 4px; color: var(--muted); font-variant-numeric: tabular-nums; }

/* The detail */
.bar { display: flex; align-items: center; gap: 8px; padding-right: 8px; }
.bar h2 { flex: 1; overflow: hidden; text-overflow: ellipsis; white-space: nowrap; }
#detail-name:focus-visible { outline-offset: -3px; border-radius: 10px 6px 6px 6px; }
.bar .button { min-height: 26px; padding: 0 9px; }
.body { padding: 0 14px 10px; overflow: auto; flex: 0 1 auto; }
.body > * + * { margin-top: 8px; }
.detail .rows { min-height: calc(3 * var(--row)); border-top: 1px solid var(--rule-line); }
.detail .rows { border-radius: 0; }
dl { display: grid; grid-template-columns: max-content minmax(0, 1fr); gap: 2px 14px; }
dt { color: var(--muted); }
dd { overflow-wrap: anywhere; }
.wide { overflow-x: auto; }
table { border-collapse: collapse; }
th, td { text-align: left; vertical-align: baseline; padding: 2px 12px 2px 0; }
th { color: var(--muted); font-weight: 400; font-size: 12px; }
thead { border-bottom: 1px solid var(--rule-line); }
td .term { overflow-wrap: anywhere; }
td.numeric { text-align: right; font-variant-numeric: tabular-nums; }

/* The keys */
dialog {
  color: inherit;
  background: var(--paper);
  border: 1px solid var(--edge);
  border-radius: 12px;
  padding: 18px 22px;
  max-width: min(520px, calc(100vw - 32px));
}
dialog::backdrop { background: rgb(0 0 0 / 45%); }
dialog h2 { font-size: 16px; margin-bottom: 10px; }
dialog td:first-child { white-space: nowrap; min-width: 7em; }
dialog form { margin-top: 14px; text-align: right; }

/* One column on narrow screens; the transition and its keys stay in sight. */
@media (max-width: 800px) {
  body { display: block; height: auto; min-height: 0; padding: 10px; }
  body > * + * { margin-top: 10px; }
  .top { flex-wrap: wrap; }
  .top h1 { max-width: none; flex: 1; }
  .query { flex: 1 0 100%; order: 2; }
  .summary { order: 3; flex: 1 1 100%; }
  .map, .slide { grid-template-columns: 92px minmax(0, 1fr); gap: 4px; }
  .course { padding: 8px 8px 4px; }
  .now {
    position: sticky;
    top: 0;
    z-index: 2;
    flex-direction: column;
    align-items: stretch;
    gap: 4px;
    margin-inline: -10px;
    padding: 8px 10px;
    background: var(--ground);
    border-bottom: 1px solid var(--rule-line);
  }
  .moves { justify-content: space-between; }
  .now .button { flex: 1; min-height: 36px; }
  .now .line { font-size: 13px; line-height: 22px; }
  main { display: flex; flex-direction: column; gap: 10px; }
  .state { display: contents; }
  .state .panel { flex: none; }
  .rows { flex: none; height: calc(clamp(1, var(--most, 5), 5) * var(--row) + var(--row)); }
  .steps .rows { height: calc(9 * var(--row)); }
  .text { max-height: 240px; }
  .detail { scroll-margin-top: 90px; }
}

@media (prefers-reduced-motion: no-preference) {
  .button, .row { transition: background-color 80ms; }
}

@media (forced-colors: active) {
  .row.current, .row.chosen { outline: 2px solid Highlight; outline-offset: -2px; }
  .head { border: 1px solid CanvasText; }
}
</style>
</head>
<body>
<noscript><p class=\"note\">This page needs JavaScript. It loads nothing.</p></noscript>

<header class=\"top\">
  <h1 id=\"file\"></h1>
  <p class=\"query\"><span class=\"muted\">query</span> <span id=\"query\" class=\"term\"></span></p>
  <p id=\"summary\" class=\"summary\"></p>
  <button type=\"button\" class=\"button\" data-key=\"?\" aria-haspopup=\"dialog\">Keys
    <kbd>?</kbd></button>
</header>

<section class=\"course\" aria-label=\"The whole run\">
  <div class=\"map\">
    <div id=\"lanes\" class=\"lanes\"></div>
    <div id=\"chart\" class=\"chart\">
      <canvas id=\"canvas\" role=\"img\"></canvas>
      <div id=\"needle\" class=\"needle\" aria-hidden=\"true\"></div>
    </div>
  </div>
  <div class=\"slide\">
    <label for=\"slider\" id=\"place\" class=\"place\"></label>
    <input id=\"slider\" type=\"range\" min=\"0\" step=\"1\" aria-label=\"transition\">
  </div>
</section>

<section class=\"now\" aria-label=\"This transition\">
  <div class=\"moves\" role=\"group\" aria-label=\"Moves\">
    <button type=\"button\" class=\"button icon\" data-key=\"Home\" title=\"first (Home)\"
      aria-label=\"first\">
      <svg viewBox=\"0 0 16 16\"><path d=\"M4 3v10M13 3L7 8l6 5z\"/></svg></button>
    <button type=\"button\" class=\"button icon\" data-key=\"F\" title=\"previous firing (F)\"
      aria-label=\"previous firing\">
      <svg viewBox=\"0 0 16 16\"><path d=\"M8 3L2 8l6 5zM14 3L8 8l6 5z\"/></svg></button>
    <button type=\"button\" class=\"button icon\" data-key=\"ArrowLeft\" title=\"back (left)\"
      aria-label=\"back\">
      <svg viewBox=\"0 0 16 16\"><path d=\"M11 3L5 8l6 5z\"/></svg></button>
    <button type=\"button\" class=\"button icon\" data-key=\"ArrowRight\" title=\"next (right)\"
      aria-label=\"next\">
      <svg viewBox=\"0 0 16 16\"><path d=\"M5 3l6 5-6 5z\"/></svg></button>
    <button type=\"button\" class=\"button icon\" data-key=\"f\" title=\"next firing (f)\"
      aria-label=\"next firing\">
      <svg viewBox=\"0 0 16 16\"><path d=\"M8 3l6 5-6 5zM2 3l6 5-6 5z\"/></svg></button>
    <button type=\"button\" class=\"button icon\" data-key=\"End\" title=\"last (End)\"
      aria-label=\"last\">
      <svg viewBox=\"0 0 16 16\"><path d=\"M12 3v10M3 3l6 5-6 5z\"/></svg></button>
  </div>
  <p id=\"now\" class=\"term line\"></p>
  <p id=\"note\" class=\"muted\" role=\"status\"></p>
</section>

<main>
  <section class=\"panel program\" aria-labelledby=\"program-name\">
    <h2 id=\"program-name\">Program <span id=\"rule-now\" class=\"count\"></span></h2>
    <div id=\"program\" class=\"text\"></div>
  </section>

  <section class=\"panel steps\" aria-labelledby=\"steps-name\">
    <h2 id=\"steps-name\">Transitions</h2>
    <form id=\"search\" class=\"search\" role=\"search\">
      <input id=\"wanted\" type=\"search\" placeholder=\"name, #3 or rule\"
        aria-label=\"search the transitions\" autocomplete=\"off\" autocapitalize=\"off\"
        spellcheck=\"false\">
      <span id=\"found\" class=\"found\" role=\"status\"></span>
      <button type=\"button\" class=\"button icon\" data-key=\"N\" title=\"previous found (N)\"
        aria-label=\"previous found\">
      <svg viewBox=\"0 0 16 16\"><path d=\"M3 11l5-6 5 6z\"/></svg></button>
      <button type=\"button\" class=\"button icon\" data-key=\"n\" title=\"next found (n)\"
        aria-label=\"next found\">
      <svg viewBox=\"0 0 16 16\"><path d=\"M3 5l5 6 5-6z\"/></svg></button>
    </form>
    <div id=\"steps\" class=\"rows\" role=\"listbox\" tabindex=\"0\"
        aria-label=\"transitions\"></div>
  </section>

  <div class=\"state\" id=\"state\">
    <section class=\"panel\" aria-labelledby=\"stack-name\">
      <h2 id=\"stack-name\">Goal stack <span class=\"count\"></span></h2>
      <div id=\"stack\" class=\"rows\" role=\"listbox\" tabindex=\"0\"
        aria-label=\"goal stack\"></div>
    </section>
    <section class=\"panel\" aria-labelledby=\"store-name\">
      <h2 id=\"store-name\">Store <span class=\"count\"></span></h2>
      <div id=\"store\" class=\"rows\" role=\"listbox\" tabindex=\"0\"
        aria-label=\"store\"></div>
    </section>
    <section class=\"panel\" aria-labelledby=\"bindings-name\">
      <h2 id=\"bindings-name\">Bindings <span class=\"count\"></span></h2>
      <div id=\"bindings\" class=\"rows\" role=\"listbox\" tabindex=\"0\"
        aria-label=\"bindings\"></div>
    </section>
    <section class=\"panel\" aria-labelledby=\"history-name\">
      <h2 id=\"history-name\">History <span class=\"count\"></span></h2>
      <div id=\"history\" class=\"rows\" role=\"listbox\" tabindex=\"0\"
        aria-label=\"history\"></div>
    </section>
  </div>

  <section class=\"panel detail\" id=\"detail\" aria-labelledby=\"detail-name\">
    <div class=\"bar\">
      <h2 id=\"detail-name\" tabindex=\"-1\"></h2>
      <span id=\"detail-moves\" class=\"moves\"></span>
    </div>
    <div id=\"detail-body\" class=\"body\"></div>
    <div id=\"detail-rows\" class=\"rows\" role=\"listbox\" tabindex=\"0\"
        aria-label=\"transitions of it\"></div>
  </section>
</main>

<p id=\"live\" class=\"unseen\" aria-live=\"polite\"></p>

<dialog id=\"keys\" aria-labelledby=\"keys-name\">
  <h2 id=\"keys-name\">Keys</h2>
  <table>
    <tr><td><kbd>→</kbd> <kbd>j</kbd></td>
      <td>next transition</td></tr>
    <tr><td><kbd>←</kbd> <kbd>k</kbd></td>
      <td>back</td></tr>
    <tr><td><kbd>f</kbd> <kbd>F</kbd></td>
      <td>next and previous firing</td></tr>
    <tr><td><kbd>c</kbd> <kbd>C</kbd></td>
      <td>next and previous for this constraint</td></tr>
    <tr><td><kbd>r</kbd> <kbd>R</kbd></td>
      <td>next and previous firing of this rule</td></tr>
    <tr><td><kbd>Home</kbd> <kbd>End</kbd></td>
      <td>first and last</td></tr>
    <tr><td><kbd>/</kbd></td>
      <td>search: a name, an identity (#3) or a rule</td></tr>
    <tr><td><kbd>n</kbd> <kbd>N</kbd></td>
      <td>next and previous found</td></tr>
    <tr><td><kbd>↑</kbd> <kbd>↓</kbd> <kbd>Enter</kbd></td>
      <td>along a list, and open a row</td></tr>
    <tr><td><kbd>Esc</kbd></td>
      <td>let go of the constraint or rule that is followed</td></tr>
    <tr><td><kbd>?</kbd></td>
      <td>these keys</td></tr>
  </table>
  <form method=\"dialog\"><button class=\"button\">Close <kbd>Esc</kbd></button></form>
</dialog>

<script type=\"application/json\" id=\"run\">
";

/// What stands behind them.
pub const BEHIND_DATA: &str = "
</script>
<script>
// The page of a run of a CHR program; the data of the run stands in the element `run`, as JSON.
// Printer gives the texts of terms, Run replays the run, and any state is read off it; Rows is a
// list that draws what is visible; ProgramView, MapView, Search and Detail show; Page joins them.
'use strict';
(() => {

const NEVER = 0x7fffffff;
// The longest texts: of a row, and of a detail. And no element is higher, which browsers refuse.
const ROW_LENGTH = 500;
const TEXT_LENGTH = 10000;
const TALLEST = 8000000;
const MOST_LANES = 6;

const KINDS = new Map([['a', 'activate'], ['d', 'default'], ['x', 'drop'], ['r', 'reactivate'],
  ['p', 'propagate'], ['s', 'simplify'], ['t', 'solve'], ['f', 'solve'], ['!', 'solve']]);
const OPERATORS = new Map([['+', 'sum'], ['-', 'sum'], ['*', 'product'], ['//', 'product'],
  ['mod', 'product']]);
// What is said of the constraint or the goal of a transition that is no firing.
const SENTENCES = new Map([['a', ' enters the store, and is active at its occurrence 1.'],
  ['r', ' is active again, at its occurrence 1.'], ['x', ' has tried all its occurrences.'],
  ['d', ' fires no rule here: its next occurrence is tried.'], ['t', ' holds.'],
  ['f', ' cannot hold: the run ends here.'], ['!', ' has no value: the run ends here.']]);
const SIGN_WORDS = new Map([['+', 'came: '], ['−', 'went: '], ['~', 'changed: '],
  ['!', 'stopped here: '], ['◆', 'found: '], ['•', 'followed: ']]);

// ---- Helpers

const byId = (id) => document.getElementById(id);
const numbers = new Intl.NumberFormat('en');
const grouped = (number) => numbers.format(number);
const counted = (number, word) => `${grouped(number)} ${word}${number === 1 ? '' : 's'}`;

// A new element; texts among its children become text nodes.
function make(tag, name, ...children) {
  const element = document.createElement(tag);
  if (name) element.className = name;
  element.append(...children);
  return element;
}

// A button; `act` is told whether a key pressed it.
function makeButton(name, text, act, label) {
  const button = make('button', name, text);
  button.type = 'button';
  if (label) button.title = label;
  if (label) button.setAttribute('aria-label', label);
  button.addEventListener('click', (event) => act(event.detail === 0));
  return button;
}

// How many numbers of an ascending list are below the bound.
function countBelow(list, bound) {
  let [low, high] = [0, list.length];
  while (low < high) {
    const middle = (low + high) >> 1;
    if (list[middle] < bound) low = middle + 1;
    else high = middle;
  }
  return low;
}

const holds = (list, number) => list[countBelow(list, number)] === number;

// For keys from 0 to count - 1 the transitions that have them, ascending, in one flat array;
// `visit` calls a function with each key and its transition, in the order of these.
function byKeys(count, visit) {
  const starts = new Int32Array(count + 1);
  visit((key) => { starts[key + 1] += 1; });
  for (let key = 0; key < count; key += 1) starts[key + 1] += starts[key];
  const items = new Int32Array(starts[count]);
  const ends = starts.slice();
  visit((key, t) => { items[ends[key]++] = t; });
  return (key) => items.subarray(starts[key], starts[key + 1]);
}

// ---- Terms

const isList = (term) => Array.isArray(term) && term[0] === '[';
const operatorKind = (term) =>
  (Array.isArray(term) && term.length === 3 ? OPERATORS.get(term[0]) : undefined);

// Prints terms as they stand after a transition. There is no recursion: what is still to print
// lies on a stack of work, an item of which is a text, a term, or the rest of some arguments.
class Printer {
  constructor(names, boundAt, values) {
    Object.assign(this, { names, boundAt, values });
    // Whether a value was put in that was bound in the very transition.
    this.changed = false;
  }

  isNamed(variable) {
    return /^[A-Z]/.test(this.names[variable] || '');
  }

  variable(variable) {
    return this.isNamed(variable) ? this.names[variable] : `_${variable}`;
  }

  value(term, time) {
    let value = term;
    while (typeof value === 'number' && this.boundAt[value] <= time) {
      if (this.boundAt[value] === time) this.changed = true;
      value = this.values[value];
    }
    return value;
  }

  term(term, time, limit = Infinity) {
    const work = [{ term }];
    let text = '';
    while (work.length > 0 && text.length <= limit) text += this.piece(work.pop(), work, time);
    return text.length > limit ? `${text.slice(0, limit)}…` : text;
  }

  // The text of one item of work; what follows it goes on the work.
  piece(item, work, time) {
    if (typeof item === 'string') return item;
    if (item.list) return this.continued(item, work, time);
    const value = this.value(item.term, time);
    if (typeof value === 'number') return this.variable(value);
    if (typeof value === 'string') return value;
    const kind = operatorKind(value);
    if (kind) return this.operands(value, kind, work, time);
    work.push({ list: value, at: 1 });
    return isList(value) ? '[' : `${value[0]}(`;
  }

  // The next argument of a term, or element of a list, or its end.
  continued({ list, at, comma }, work, time) {
    if (at === list.length) return isList(list) ? ']' : ')';
    if (list[at] === '|') return this.rest(list[at + 1], work, time);
    work.push({ list, at: at + 1, comma: true }, { term: list[at] });
    return comma ? ',' : '';
  }

  // What a list ends with that was written with a bar.
  rest(term, work, time) {
    const value = this.value(term, time);
    if (value === '[]') return ']';
    if (isList(value)) work.push({ list: value, at: 1, comma: true });
    else work.push(']', { term: value });
    return isList(value) ? '' : '|';
  }

  operands([name, left, right], kind, work, time) {
    const product = kind === 'product';
    const put = (term, enclosed) => {
      if (enclosed) work.push(')', { term }, '(');
      else work.push({ term });
    };
    const rightKind = operatorKind(this.value(right, time));
    put(right, rightKind === 'sum' || (product && rightKind === 'product'));
    work.push(name === 'mod' ? ' mod ' : name);
    put(left, product && operatorKind(this.value(left, time)) === 'sum');
    return '';
  }

  goal(goal, time, limit) {
    if (!goal.told) return this.term(goal, time, limit);
    const [sign, left, right] = goal.told;
    if (goal.told.length === 1) return sign;
    return `${this.term(left, time, limit)} ${sign} ${this.term(right, time, limit)}`;
  }
}

// ---- The model

// A run, replayed once. The stack is a list of nodes that share their tails: `top[t]` is its first
// node after transition t, and node 0 the empty stack. A constraint has the transitions at which
// it came and went, a variable the one at which it was bound; the history is a prefix of `firings`.
class Run {
  constructor(data) {
    this.rules = data.rules;
    this.steps = [null];
    for (const item of data.run) {
      if (typeof item === 'string') for (const letter of item) this.steps.push(letter);
      else this.steps.push(item);
    }
    this.last = this.steps.length - 1;
    this.kinds = this.steps.map((step) => (step ? step[0] : '0'));
    this.readBindings(data.names);
    this.replay(data.goals);
    this.allOf = byKeys(this.goalOf.length, (add) => this.visitConcerned(add));
    this.firingsOf = byKeys(this.rules.length,
      (add) => this.firings.forEach((t) => add(this.steps[t][1], t)));
    // For a symbol and an occurrence its rule and head.
    this.places = new Map(data.rules.flatMap(({ heads }, rule) => heads.map(
      ({ symbol, occurrence }, head) => [`${symbol}:${occurrence}`, { rule, head }])));
  }

  readBindings(names) {
    const visit = (act) => this.kinds.forEach((kind, t) => {
      if (kind === 't') for (const binding of this.steps[t][1]) act(binding[0], binding[1], t);
    });
    let count = names.length;
    visit((k) => { count = Math.max(count, k + 1); });
    this.boundAt = new Int32Array(count).fill(NEVER);
    const values = new Array(count);
    visit((k, term, t) => {
      this.boundAt[k] = t;
      values[k] = term;
    });
    this.printer = new Printer(names, this.boundAt, values);
    this.named = [...names.keys()].filter((k) => this.printer.isNamed(k));
  }

  replay(goals) {
    // After each transition: the stack, and how many are stored, were made, and fired; and the
    // constraint that the transition is about.
    for (const name of ['top', 'stored', 'made', 'fired', 'subject']) {
      this[name] = new Int32Array(this.last + 1);
    }
    // The nodes of the stack: node 0 is its end.
    const pushed = { a: () => 1, d: () => 1, r: () => 1, p: (step) => step[3].length,
      s: (step) => step[3].length, t: (step) => step[2].length };
    const count = this.kinds.reduce((sum, kind, t) =>
      sum + (pushed[kind] ? pushed[kind](this.steps[t]) : 0), goals.length + 1);
    this.nodes = { count: 1, goal: new Array(count).fill(null) };
    for (const name of ['id', 'occurrence', 'next', 'depth', 'origin']) {
      this.nodes[name] = new Int32Array(count);
    }
    this.nodes.takenAt = new Int32Array(count).fill(NEVER);
    [this.goalOf, this.cameAt, this.wentAt, this.goalNode] = [[null], [0], [0], [0]];
    this.firings = [];
    this.top[0] = this.pushGoals(goals, 0, 0);
    for (let t = 1; t <= this.last; t += 1) this.step(t);
  }

  push(goal, id, occurrence, next, origin) {
    const { nodes } = this;
    const node = nodes.count;
    nodes.count += 1;
    nodes.goal[node] = goal;
    nodes.id[node] = id;
    nodes.occurrence[node] = occurrence;
    nodes.next[node] = next;
    nodes.depth[node] = nodes.depth[next] + 1;
    nodes.origin[node] = origin;
    return node;
  }

  pushGoals(goals, below, origin) {
    return goals.reduceRight((next, goal) => this.push(goal, 0, 0, next, origin), below);
  }

  // Makes one transition.
  step(t) {
    const { nodes, steps: { [t]: step }, kinds: { [t]: kind } } = this;
    const top = this.top[t - 1];
    const below = nodes.next[top];
    this.stored[t] = this.stored[t - 1];
    if (kind === 'a') this.enter(nodes.goal[top], t, top);
    const id = kind === 'a' ? this.goalOf.length - 1 : nodes.id[top];
    nodes.takenAt[top] = t;
    this.top[t] = top;
    if (kind === 'a' || kind === 'r') this.top[t] = this.push(null, id, 1, below, t);
    if (kind === 'd') this.top[t] = this.push(null, id, nodes.occurrence[top] + 1, below, t);
    if (kind === 'x') this.top[t] = below;
    if (kind === 't') {
      this.top[t] = step[2].reduceRight((next, woken) => this.push(null, woken, 0, next, t), below);
    }
    if (this.isFiring(t)) {
      this.firings.push(t);
      step[2].forEach((taken, head) => this.take(taken, this.rules[step[1]].heads[head], t));
      this.top[t] = this.pushGoals(step[3], kind === 'p' ? top : below, t);
    }
    this.subject[t] = id;
    this.made[t] = this.goalOf.length - 1;
    this.fired[t] = this.firings.length;
  }

  // A goal becomes a constraint of the store.
  enter(goal, t, node) {
    this.goalOf.push(goal);
    this.cameAt.push(t);
    this.wentAt.push(NEVER);
    this.goalNode.push(node);
    this.stored[t] += 1;
  }

  take(id, head, t) {
    if (!head.removed) return;
    this.wentAt[id] = t;
    this.stored[t] -= 1;
  }

  // -- What is read off

  isFiring(t) {
    return this.kinds[t] === 'p' || this.kinds[t] === 's';
  }

  // The identities of the constraints that each transition is about.
  visitConcerned(act) {
    this.kinds.forEach((kind, t) => {
      if ('pst'.includes(kind)) for (const id of this.steps[t][2]) act(id, t);
      else if (this.subject[t]) act(this.subject[t], t);
    });
  }

  // The rule of a transition, whether it fires, and the head of each constraint that it takes.
  ruleAt(t) {
    if (this.isFiring(t)) {
      const [, rule, ids] = this.steps[t];
      return { rule, fires: true, took: new Map(ids.map((id, head) => [id, head])) };
    }
    const id = this.subject[t];
    const goal = this.goalOf[id];
    const symbol = Array.isArray(goal) ? `${goal[0]}/${goal.length - 1}` : `${goal}/0`;
    const place = this.kinds[t] === 'd'
      ? this.places.get(`${symbol}:${this.nodes.occurrence[this.top[t - 1]]}`) : undefined;
    if (!place) return { rule: -1, fires: false, took: new Map() };
    return { rule: place.rule, fires: false, took: new Map([[id, place.head]]) };
  }

  // The nodes of the first goals that a firing pushed.
  pushedNodes(t) {
    const list = [];
    const count = Math.min(100, this.steps[t][3].length);
    for (let node = this.top[t]; list.length < count; node = this.nodes.next[node]) list.push(node);
    return list;
  }

  // The identities in the store after t, and those that went in it where they are wanted.
  storeAt(t, withGone) {
    const list = [];
    const bound = withGone ? t : t + 1;
    for (let id = 1; id <= this.made[t]; id += 1) if (this.wentAt[id] >= bound) list.push(id);
    return list;
  }

  // -- Texts

  known(id, time, limit) {
    return `${this.printer.goal(this.goalOf[id], time, limit)}#${id}`;
  }

  element(node, time, limit) {
    const { goal, id, occurrence } = this.nodes;
    if (id[node] === 0) return this.printer.goal(goal[node], time, limit);
    return this.known(id[node], time, limit) + (occurrence[node] ? `:${occurrence[node]}` : '');
  }

  firing(t) {
    return `${this.rules[this.steps[t][1]].name} ${this.steps[t][2].join(',')}`;
  }

  binding(variable, time, limit) {
    return `${this.printer.variable(variable)} = ${this.printer.term(variable, time, limit)}`;
  }

  // The line of a transition as `chr` prints it, in parts: each a class and a text.
  parts(t, limit) {
    const kind = this.kinds[t];
    if (t === 0) return [['number', '0'], ['kind', ' start']];
    const element = kind === 'a' ? this.known(this.subject[t], t - 1, limit)
      : this.element(this.top[t - 1], t - 1, limit);
    const list = [['number', `${t}`], ['kind', ` ${KINDS.get(kind)}`], ['term', ` ${element}`]];
    if (this.isFiring(t)) {
      const [, rule, ids] = this.steps[t];
      list.push(['label', ` ${this.rules[rule].name}`], ['ids', ` ${ids.join(',')}`]);
    }
    if (kind === 'f') list.push(['ill', ' fails']);
    if (kind === '!') list.push(['ill', ` fault ${this.steps[t][1]}`]);
    return list;
  }

  line(t, limit) {
    return this.parts(t, limit).map((part) => part[1]).join('');
  }

  // The state after a transition, as `look answer` prints it from its line `stack` on.
  stateText(t) {
    const part = (name, lines) => [`${name} ${lines.length}`, ...lines];
    const { nodes: { next } } = this;
    const stack = [];
    for (let node = this.top[t]; node; node = next[node]) stack.push(this.element(node, t));
    return [part('stack', stack),
      part('store', this.storeAt(t, false).map((id) => this.known(id, t))),
      part('bindings', this.boundBy(t).map((k) => this.binding(k, t))),
      part('history', this.firings.slice(0, this.fired[t]).map((firing) => this.firing(firing)))]
      .flat().map((line) => `${line}\\n`).join('');
  }

  boundBy(t) {
    return this.named.filter((k) => this.boundAt[k] <= t);
  }
}

// ---- Lists

// A list that draws only the rows that are visible. `source.row(k)` is what the k-th row shows
// (parts, sign, head, tag, classes), `source.open(k, byKey)` opens it.
class Rows {
  constructor(id, source) {
    this.element = byId(id);
    // `scrolled` is where the list is drawn, `placed` where the browser has it.
    Object.assign(this, { source, count: 0, cursor: 0, pool: [], scrolled: 0, placed: 0 });
    this.spacer = this.element.appendChild(make('div', 'spacer'));
    this.height = parseFloat(getComputedStyle(this.element).getPropertyValue('--row'));
    this.view = this.element.clientHeight;
    this.element.addEventListener('scroll', () => {
      this.placed = this.element.scrollTop;
      if (this.placed === this.scrolled) return;
      this.scrolled = this.placed;
      this.draw();
    });
    new ResizeObserver(() => {
      this.view = this.element.clientHeight;
      if (this.revealed < this.count) this.reveal(this.revealed);
      this.draw();
      this.place();
    }).observe(this.element);
    this.element.addEventListener('click', (event) => {
      const row = event.target.closest('.row');
      if (row) this.open(Number(row.dataset.index), false);
    });
    this.element.addEventListener('keydown', (event) => this.press(event));
  }

  open(index, byKey) {
    this.cursor = index;
    this.source.open(index, byKey);
    this.draw();
  }

  press(event) {
    if (event.ctrlKey || event.metaKey || event.altKey) return;
    const page = Math.max(1, Math.floor(this.view / this.height) - 1);
    const moves = { ArrowUp: -1, ArrowDown: 1, PageUp: -page, PageDown: page, Home: -this.count,
      End: this.count };
    if (event.key in moves) this.moveTo(this.cursor + moves[event.key]);
    else if (!['Enter', ' '].includes(event.key)) return;
    else if (this.count > 0) this.open(this.cursor, true);
    event.preventDefault();
    event.stopPropagation();
  }

  moveTo(index) {
    this.cursor = Math.max(0, Math.min(this.count - 1, index));
    if (this.source.move) this.source.move(this.cursor);
    this.reveal(this.cursor);
    this.draw();
    this.place();
  }

  show(count) {
    this.count = count;
    this.element.dataset.count = count;
    this.cursor = Math.max(0, Math.min(count - 1, this.cursor));
    const tall = Math.min(count * this.height, TALLEST);
    this.spacer.style.height = `${tall}px`;
    this.scrolled = Math.max(0, Math.min(this.scrolled, tall - this.view));
  }

  // How many pixels of rows one pixel of scrolling is.
  scale() {
    const whole = this.count * this.height;
    return whole > TALLEST ? (whole - this.view) / (TALLEST - this.view) : 1;
  }

  // Scrolls so that a row is visible, with some rows around it.
  reveal(index) {
    this.revealed = index;
    const scale = this.scale();
    const offset = this.scrolled * scale;
    const margin = Math.min(2 * this.height, Math.max(0, (this.view - this.height) / 2));
    const top = index * this.height - margin;
    const bottom = (index + 1) * this.height + margin;
    let wanted = top < offset ? top : Math.max(offset, bottom - this.view);
    if (Math.abs(wanted - offset) > this.view) wanted = (top + bottom - this.view) / 2;
    const most = Math.max(0, Math.min(this.count * this.height, TALLEST) - this.view);
    this.scrolled = Math.round(Math.max(0, Math.min(most, wanted / scale)));
  }

  // Scrolls to where the list is drawn. It makes the browser lay out the page, so it comes last.
  place() {
    if (this.placed !== this.scrolled) this.element.scrollTop = this.scrolled;
    this.placed = this.scrolled;
  }

  draw() {
    const { element, pool, height, view } = this;
    const offset = this.scrolled * this.scale();
    const first = Math.max(0, Math.floor(offset / height) - 2);
    const end = Math.min(this.count, Math.ceil((offset + view) / height) + 2);
    while (pool.length < end - first) pool.push(this.spacer.appendChild(make('div', 'row')));
    pool.forEach((row, k) => {
      row.hidden = first + k >= end;
      if (row.hidden) return;
      this.fill(row, first + k);
      row.style.top = `${this.scrolled + (first + k) * height - offset}px`;
    });
    element.setAttribute('aria-activedescendant', `${element.id}-${this.cursor}`);
  }

  fill(row, index) {
    const { parts, sign = '', head = -1, tag = '', classes = '' } = this.source.row(index);
    const text = parts.map((part) => part[1]).join('');
    const name = `row ${classes}${head < 0 ? '' : ` head head-${head}`}`
      + (index === this.cursor ? ' cursor' : '') + ({ '−': ' went', '+': ' came' }[sign] || '');
    const key = [index, this.count, sign, tag, name, text].join('\\n');
    if (row.shownKey === key) return;
    row.shownKey = key;
    row.className = name;
    row.id = `${this.element.id}-${index}`;
    row.dataset.index = index;
    row.title = text.length > 24 ? text : '';
    const names = { role: 'option', 'aria-setsize': this.count, 'aria-posinset': index + 1,
      'aria-selected': classes.includes('current'),
      'aria-label': `${SIGN_WORDS.get(sign) || ''}${text} ${tag}` };
    for (const [attribute, value] of Object.entries(names)) row.setAttribute(attribute, value);
    const cell = make('span', 'cell', ...parts.map((part) => make('span', ...part)));
    row.replaceChildren(make('span', 'sign', sign), cell, make('span', 'tag', tag));
  }
}

// ---- The program's text

class ProgramView {
  constructor(data, openRule) {
    this.element = byId('program');
    this.rules = data.rules;
    this.heads = data.rules.map((rule) => rule.heads.map(() => []));
    this.lines = [null];
    this.rulesOf = [];
    this.marked = [];
    data.rules.forEach(({ line, last }, r) => {
      for (let k = line; k <= last; k += 1) this.rulesOf[k] = [...(this.rulesOf[k] || []), r];
    });
    this.addLine();
    for (const piece of data.text) this.addPiece(piece);
    if (this.code.textContent === '' && this.lines.length > 2) this.lines.pop();
    for (const line of this.lines.slice(1)) this.element.append(line);
    this.element.addEventListener('click', (event) => {
      const rule = this.ruleOf(event.target);
      if (rule >= 0 && String(getSelection()) === '') openRule(rule, event.detail === 0);
    });
    this.element.addEventListener('keydown', (event) => this.press(event));
  }

  // Begins a line: its number, which is a button where a rule begins, and its text.
  addLine() {
    const number = this.lines.length;
    const rules = this.rulesOf[number] || [];
    const begun = rules.find((r) => this.rules[r].line === number);
    const mark = make(begun >= 0 ? 'button' : 'span', 'line-number', `${number}`);
    if (begun >= 0) {
      mark.tabIndex = this.hasButton ? -1 : 0;
      this.hasButton = true;
      mark.setAttribute('aria-label', `line ${number}, rule ${this.rules[begun].name}`);
    }
    this.code = make('span', 'code');
    const line = make('div', rules.length ? 'code-line has-rule' : 'code-line', mark, this.code);
    line.dataset.line = number;
    this.lines.push(line);
  }

  // Adds the text of a head, or what stands between heads, with its comments.
  addPiece(piece) {
    if (Array.isArray(piece)) this.addText(piece[2], '', piece);
    else {
      piece.split(/(%[^\\n]*|\\/\\*[^]*?\\*\\/)/)
        .forEach((text, k) => this.addText(text, k % 2 ? 'comment' : ''));
    }
  }

  addText(text, name, head) {
    text.split('\\n').forEach((part, k) => {
      if (k > 0) this.addLine();
      if (part === '') return;
      const span = this.code.appendChild(make('span', name, part));
      if (!head) return;
      span.dataset.rule = head[0];
      this.heads[head[0]][head[1]].push(span);
    });
  }

  ruleOf(target) {
    const head = target.closest('[data-rule]');
    const line = target.closest('.code-line');
    if (head) return Number(head.dataset.rule);
    return ((line && this.rulesOf[line.dataset.line]) || [-1])[0];
  }

  // Up and down go from rule to rule: the text is one stop of the tab key.
  press(event) {
    const move = { ArrowUp: -1, ArrowDown: 1 }[event.key];
    if (!move || !event.target.matches('.line-number')) return;
    const buttons = [...this.element.querySelectorAll('button')];
    const next = buttons[buttons.indexOf(event.target) + move] || event.target;
    event.preventDefault();
    event.stopPropagation();
    event.target.tabIndex = -1;
    next.tabIndex = 0;
    next.focus();
  }

  // Marks the rule that is followed, the rule of the moment, and the heads that took a constraint.
  mark({ rule, fires, took }, followed) {
    for (const [element, names] of this.marked) element.classList.remove(...names);
    this.marked = [];
    const add = (element, ...names) => {
      element.classList.add(...names);
      this.marked.push([element, names]);
    };
    const linesOf = (r) => this.lines.slice(this.rules[r].line, this.rules[r].last + 1);
    if (followed >= 0) for (const line of linesOf(followed)) add(line, 'chosen');
    if (rule < 0) return;
    for (const line of linesOf(rule)) add(line, fires ? 'fires' : 'tries');
    for (const head of took.values()) {
      for (const span of this.heads[rule][head]) add(span, 'head', `head-${head}`);
    }
    this.wanted = linesOf(rule)[0];
  }

  // Scrolls to the rule that was marked last, once.
  place() {
    const { element, wanted } = this;
    if (wanted === this.placed) return;
    this.placed = wanted;
    const { offsetTop, offsetHeight } = wanted;
    if (offsetTop < element.scrollTop) element.scrollTop = offsetTop - 24;
    else if (offsetTop + offsetHeight > element.scrollTop + element.clientHeight) {
      element.scrollTop = offsetTop + offsetHeight - element.clientHeight + 24;
    }
  }
}

// ---- The map of the run

// Lanes over all transitions: the size of the store, the depth of the stack, and the firings of
// the rules that fire most; below them ticks for what was found or is followed.
class MapView {
  constructor(page, run) {
    Object.assign(this, { run, chart: byId('chart'), canvas: byId('canvas'), marks: [] });
    this.lanes = this.makeLanes();
    byId('lanes').append(...this.lanes.map(({ name, note, rule, height }) => {
      const shown = rule >= 0 ? page.link('rule', rule, name) : make('span', '', name);
      shown.title = name;
      const lane = make('div', 'lane', shown, make('span', 'muted', note));
      lane.style.height = `${height}px`;
      return lane;
    }));
    this.canvas.setAttribute('aria-label',
      `Map of the run: ${this.lanes.map((lane) => `${lane.name} ${lane.note}`).join(', ')}`);
    new ResizeObserver(() => this.draw()).observe(this.chart);
    matchMedia('(prefers-color-scheme: dark)').addEventListener('change', () => this.draw());
    const follow = (event) => {
      if (event.type === 'pointerdown') this.chart.setPointerCapture(event.pointerId);
      if (!this.chart.hasPointerCapture(event.pointerId)) return;
      const { left, width } = this.chart.getBoundingClientRect();
      page.go(Math.round(((event.clientX - left) / width) * run.last));
    };
    this.chart.addEventListener('pointerdown', follow);
    this.chart.addEventListener('pointermove', follow);
  }

  makeLanes() {
    const { run } = this;
    const line = (name, values) => {
      const most = values.reduce((a, b) => Math.max(a, b), 0);
      return { name, values, most, note: `max ${grouped(most)}`, height: 32 };
    };
    const ticks = (name, transitions, rule) =>
      ({ name, transitions, rule, note: `${grouped(transitions.length)}×`, height: 16 });
    const fired = (r) => run.firingsOf(r).length;
    const rules = [...run.rules.keys()].filter(fired).sort((a, b) => fired(b) - fired(a));
    const others = new Set(rules.length > MOST_LANES ? rules.splice(MOST_LANES - 1) : []);
    const lanes = [line('store', run.stored),
      line('stack', Int32Array.from(run.top, (node) => run.nodes.depth[node])),
      ...rules.sort((a, b) => a - b).map((r) => ticks(run.rules[r].name, run.firingsOf(r), r))];
    if (others.size === 0) return lanes;
    const rest = run.firings.filter((t) => others.has(run.steps[t][1]));
    return [...lanes, ticks(counted(others.size, 'more rule'), rest, -1)];
  }

  setMarks(marks) {
    this.marks = marks;
    this.draw();
  }

  draw() {
    const { canvas, lanes, chart: { clientWidth: width } } = this;
    const density = window.devicePixelRatio;
    const height = lanes.reduce((sum, lane) => sum + lane.height, 10);
    canvas.style.height = `${height}px`;
    canvas.width = Math.max(1, Math.round(width * density));
    canvas.height = Math.round(height * density);
    const colours = getComputedStyle(canvas);
    const brush = canvas.getContext('2d');
    brush.scale(density, density);
    const paint = (colour, ...box) => {
      brush.fillStyle = colours.getPropertyValue(colour);
      brush.fillRect(...box);
    };
    let top = 0;
    for (const lane of lanes) {
      const bottom = top + lane.height - 1;
      paint('--rule-line', 0, bottom, width, 1);
      if (lane.values) this.drawLine(paint, lane, top + 6, bottom, width);
      else this.drawTicks(paint, '--tick', lane.transitions, top + 3, lane.height - 6, width);
      top += lane.height;
    }
    this.drawTicks(paint, '--mark', this.marks, top + 3, 6, width);
  }

  // One column a pixel: the area below the greatest value in it, and a line on top.
  drawLine(paint, { name, values, most }, top, bottom, width) {
    const per = this.run.last / width;
    let before = -1;
    for (let x = 0; x < width; x += 1) {
      const to = Math.max(Math.round(x * per), Math.round((x + 1) * per) - 1);
      let value = 0;
      for (let t = Math.round(x * per); t <= to; t += 1) value = Math.max(value, values[t]);
      const y = Math.round(bottom - (value / (most || 1)) * (bottom - top));
      if (before < 0) before = y;
      paint(`--${name}-fill`, x, y, 1, bottom - y);
      paint(`--${name}-line`, x, Math.min(before, y) - 1, 1, Math.abs(before - y) + 2);
      before = y;
    }
  }

  drawTicks(paint, colour, transitions, top, height, width) {
    const last = this.run.last || 1;
    const thick = Math.max(1, Math.min(4, Math.round((0.5 * width) / last)));
    let before = -1;
    for (const t of transitions) {
      const x = Math.min(width - thick, Math.max(0, Math.round((t / last) * width - thick / 2)));
      if (x !== before) paint(colour, x, top, thick, height);
      before = x;
    }
  }
}

// ---- Search

// Finds the transitions of an identity (`#3`), or those whose lines have a text: a slice of them
// at a time, so that the page stays at hand.
class Search {
  constructor(run, changed) {
    Object.assign(this, { run, changed, wanted: '', found: [], isOver: true });
  }

  start(wanted) {
    clearTimeout(this.timer);
    this.wanted = wanted.trim().toLowerCase();
    this.found = [];
    this.next = 1;
    this.isOver = this.wanted === '';
    if (/^#\\d+$/.test(this.wanted)) this.findIdentity(Number(this.wanted.slice(1)));
    else if (!this.isOver) this.slice();
    this.changed();
  }

  // The constraint of that identity, and the rule without a name that is called so.
  findIdentity(id) {
    const { run, wanted } = this;
    const rule = run.rules.findIndex(({ name }) => name === wanted);
    this.found = [...new Set([...(id > 0 && id < run.goalOf.length ? run.allOf(id) : []),
      ...(rule >= 0 ? run.firingsOf(rule) : [])])].sort((a, b) => a - b);
    this.isOver = true;
  }

  slice() {
    const stop = performance.now() + 12;
    while (this.next <= this.run.last && performance.now() < stop) {
      const line = this.run.line(this.next, ROW_LENGTH).toLowerCase();
      if (line.includes(this.wanted)) this.found.push(this.next);
      this.next += 1;
    }
    this.isOver = this.next > this.run.last;
    if (this.isOver) this.changed();
    else this.timer = setTimeout(() => this.slice(), 0);
  }
}

// ---- The detail

// What is known of one thing: the life of a constraint, the firings of a rule, a firing, or, where
// nothing is chosen, the transition itself.
class Detail {
  constructor(page, run) {
    Object.assign(this, { page, run, body: byId('detail-body'), list: { items: [] } });
    this.rows = new Rows('detail-rows', {
      row: (k) => this.list.row(this.list.items[k]),
      open: (k, byKey) => page.open(this.list.kind, this.list.items[k], byKey),
    });
  }

  // -- Links

  to(t) {
    return this.page.link('transition', t, `${t}`, 'link', `go to transition ${t}`);
  }

  constraint(id, time) {
    return this.page.link('constraint', id, this.run.known(id, time, TEXT_LENGTH), 'link term');
  }

  rule(rule) {
    return this.page.link('rule', rule, this.run.rules[rule].name, 'link term');
  }

  firing(t) {
    return this.page.link('firing', t, this.run.firing(t), 'link term');
  }

  // Where a goal on the stack came from.
  origin(t) {
    return t ? ['the body of ', this.firing(t), ' at ', this.to(t)] : ['the query, ', this.to(0)];
  }

  // -- Parts of the text

  say(...parts) {
    this.body.append(make('p', '', ...parts));
  }

  term(text) {
    return make('span', 'term', text);
  }

  // The first of some things, with commas between them, and how many there are.
  some(list, build) {
    if (list.length === 0) return ['never'];
    const first = Array.from(list.slice(0, 5));
    const parts = first.flatMap((item, k) => [k ? ', ' : '', ...build(item)]);
    return list.length > 5 ? [...parts, `, … (${grouped(list.length)} in all)`] : parts;
  }

  table(heads, lines) {
    const row = (tag, cells) => make('tr', '', ...cells.map((cell) => (typeof cell === 'number'
      ? make(tag, 'numeric', grouped(cell)) : make(tag, '', ...[cell].flat()))));
    this.body.append(make('div', 'wide', make('table', '', make('thead', '', row('th', heads)),
      make('tbody', '', ...lines.map((cells) => row('td', cells))))));
  }

  facts(pairs) {
    this.body.append(make('dl', '', ...pairs.flatMap(([name, parts]) =>
      [make('dt', '', name), make('dd', '', ...parts)])));
  }

  // -- Showing

  // Shows what is chosen; only its title is new where it is shown already.
  show(choice, t) {
    const isShown = this.choice === choice && choice.kind !== 'transition';
    this.choice = choice;
    this.t = t;
    byId('detail-name').replaceChildren(...this.title());
    if (!isShown) this.build();
    if (this.list.kind === 'transition') {
      this.rows.reveal(Math.max(0, countBelow(this.list.items, t + 1) - 1));
    }
    this.rows.draw();
  }

  build() {
    const { kind, key } = this.choice;
    const hadFocus = byId('detail').contains(document.activeElement);
    this.body.replaceChildren();
    this.list = { items: [] };
    if (kind === 'constraint') this.showLife(key);
    else if (kind === 'rule') this.showRule(key);
    else if (kind === 'firing') this.showFiring(key);
    else this.showTransition(this.t);
    byId('detail-moves').replaceChildren(...this.moves());
    byId('detail-rows').hidden = this.list.items.length === 0;
    if (kind !== 'transition') this.body.scrollTop = 0;
    this.rows.scrolled = 0;
    this.rows.cursor = 0;
    this.rows.show(this.list.items.length);
    if (hadFocus) byId('detail-name').focus({ preventScroll: true });
  }

  title() {
    const { run, t, choice: { kind, key } } = this;
    if (kind === 'rule') return ['Rule ', this.term(run.rules[key].name)];
    if (kind === 'firing') return ['Firing ', this.term(`${key} ${run.firing(key)}`)];
    if (kind === 'transition') return [t === 0 ? 'Start' : `Transition ${t}`];
    const [came, went] = [run.cameAt[key], run.wentAt[key]];
    const text = run.known(key, Math.max(came, Math.min(t, went - 1)), ROW_LENGTH);
    return ['Constraint ', this.term(text), make('span', 'count',
      t < came ? 'not there yet' : t < went ? 'in the store' : 'removed')];
  }

  // Buttons that go on along what is chosen, and one that lets it go.
  moves() {
    const { page, choice: { kind, key } } = this;
    if (kind === 'transition') return [];
    const close = makeButton('button', '×', () => page.letGo(), 'close (Esc)');
    if (kind === 'firing') return [makeButton('button', `go to ${key}`, () => page.go(key)), close];
    const [back, on] = kind === 'rule' ? ['R', 'r'] : ['C', 'c'];
    return [makeButton('button', '‹', () => page.act(back), `previous of this ${kind} (${back})`),
      makeButton('button', '›', () => page.act(on), `next of this ${kind} (${on})`), close];
  }

  showLife(id) {
    const { run } = this;
    const all = run.allOf(id);
    const [origin, went] = [run.nodes.origin[run.goalNode[id]], run.wentAt[id]];
    const active = [];
    for (const t of all) {
      if (run.kinds[t] === 'a' || run.kinds[t] === 'r') active.push({ from: t, to: t, tried: 0 });
      else if (run.subject[t] === id) {
        const now = active[active.length - 1];
        now.to = t;
        if (run.kinds[t] !== 'x') now.tried = run.nodes.occurrence[run.top[t - 1]];
      }
    }
    this.facts([
      ['pushed', ['by ', ...this.origin(origin)]],
      ['activated', ['at ', this.to(run.cameAt[id])]],
      ['active', this.some(active, ({ from, to, tried }) => [this.to(from), '–', this.to(to),
        ['', ' at occurrence 1'][tried] ?? ` at occurrences 1–${tried}`])],
      ['woken', this.some(all.filter((t) => run.kinds[t] === 't'),
        (t) => ['by the solve at ', this.to(t)])],
      ['took part', this.some(all.filter((t) => run.isFiring(t)),
        (t) => ['in ', this.firing(t), ' at ', this.to(t)])],
      ['removed', went === NEVER ? ['never: it lives']
        : ['by ', this.firing(went), ' at ', this.to(went)]],
    ]);
    const fate = (t) => (run.kinds[t] === 't' ? 'woken' : run.kinds[t] === 'a' ? 'came'
      : run.isFiring(t) ? (went === t ? 'removed' : 'kept') : '');
    this.list = { items: all, kind: 'transition',
      row: (t) => ({ ...this.page.stepRow(t), sign: '', tag: fate(t) }) };
  }

  showRule(rule) {
    const { run } = this;
    const { line, last, heads } = run.rules[rule];
    const firings = run.firingsOf(rule);
    this.say(line === last ? `Line ${line}` : `Lines ${line} to ${last}`,
      `, ${counted(firings.length, 'firing')}.`);
    this.table(['head', 'symbol', '', 'occurrence', 'searches', 'fired', 'default',
      'partial', 'tried'],
      heads.map((head, h) => [make('span', `head head-${h}`, `${h + 1}`), this.term(head.symbol),
        head.removed ? 'removed' : 'kept', head.passive ? 'passive' : head.occurrence,
        head.searches, head.fired, head.defaults, head.partial, head.tried]));
    this.list = { items: firings, kind: 'transition', row: (t) => ({
      parts: [['number', `${t}`],
        ['', ` ${run.steps[t][2].map((id) => run.known(id, t - 1, ROW_LENGTH)).join(', ')}`]],
      classes: t === this.t ? 'current' : '' }) };
  }

  showFiring(t) {
    const { run } = this;
    const [kind, rule, ids] = run.steps[t];
    this.say(this.rule(rule), kind === 'p' ? ' propagates.' : ' simplifies.');
    this.table(['head', 'before', 'after'], ids.map((id, h) => [
      make('span', `head head-${h}`, `${h + 1}`), this.constraint(id, t - 1),
      run.wentAt[id] === t ? make('span', 'minus', '− removed') : 'kept']));
    const nodes = run.pushedNodes(t);
    if (nodes.length === 0) this.say('The body has no goals.');
    else this.table(['goal of the body', 'what it became'], nodes.map((node) => this.goal(node)));
  }

  // A goal as it was pushed, and what it became.
  goal(node) {
    const { run, run: { nodes } } = this;
    const t = nodes.takenAt[node];
    const kind = t === NEVER ? '' : run.kinds[t];
    return [this.term(run.printer.goal(nodes.goal[node], nodes.origin[node], TEXT_LENGTH)),
      kind === '' ? 'not reached' : kind === 'a'
        ? [make('span', 'plus', '+ '), this.constraint(run.subject[t], t), ' at ', this.to(t)]
        : [kind === 't' ? 'solved at ' : 'ended the run at ', this.to(t)]];
  }

  showTransition(t) {
    const { run, run: { nodes } } = this;
    if (t === 0) return this.say('The goals of the query are on the stack.');
    if (run.isFiring(t)) return this.showFiring(t);
    const [kind, id, node] = [run.kinds[t], run.subject[t], run.top[t - 1]];
    const [from, { rule }] = [nodes.origin[node], run.ruleAt(t)];
    this.say(id ? this.constraint(id, t) : this.term(run.element(node, t - 1, TEXT_LENGTH)),
      SENTENCES.get(kind));
    const facts = [];
    const occurrence = nodes.occurrence[node];
    if (rule >= 0) facts.push(['rule', [this.rule(rule), `, occurrence ${occurrence}`]]);
    if ('atf!'.includes(kind)) facts.push(['from', this.origin(from)]);
    if (kind === 'r') facts.push(['woken', ['by the solve at ', this.to(from)]]);
    if (kind === 't') {
      const [, bindings, woken] = run.steps[t];
      facts.push(['binds', bindings.length === 0 ? ['nothing'] : bindings.slice(0, 50)
        .flatMap(([k], n) => [n ? ', ' : '', this.term(run.binding(k, t, ROW_LENGTH))])]);
      facts.push(['wakes', [woken.length === 0 ? 'nothing' : counted(woken.length, 'constraint')]]);
      this.list = { items: woken, kind: 'constraint',
        row: (other) => ({ parts: [['', run.known(other, t, ROW_LENGTH)]], tag: 'woken' }) };
    }
    return this.facts(facts);
  }
}

// ---- The page

class Page {
  constructor(data) {
    const run = new Run(data);
    Object.assign(this, { run, t: 0, choice: { kind: 'transition' }, followed: [] });
    byId('file').textContent = data.file;
    byId('query').textContent = data.query;
    byId('query').title = data.query;
    byId('summary').textContent = [counted(run.last, 'transition'),
      counted(run.firings.length, 'firing'), data.end].join(' · ');
    document.title = `${data.file}: a run`;
    this.program = new ProgramView(data, (rule, byKey) => this.open('rule', rule, byKey));
    this.map = new MapView(this, run);
    this.search = new Search(run, () => this.showFound());
    this.detail = new Detail(this, run);
    this.makeLists();
    this.makeKeys();
    this.makeControls();
    this.readPlace(window.location.hash);
  }

  // -- The lists

  makeLists() {
    const { run } = this;
    document.body.style.setProperty('--digits', `${run.last}`.length);
    const rows = (id, row, kind, key, most) => {
      byId(id).parentElement.style.setProperty('--most', Math.min(8, most));
      return new Rows(id, { row, open: (k, byKey) => this.open(kind, key(k), byKey) });
    };
    const [stored, depth] = this.map.lanes.map((lane) => lane.most);
    this.steps = new Rows('steps', { row: (t) => this.stepRow(t), open: (t) => this.go(t),
      move: (t) => this.go(t) });
    this.stack = rows('stack', (k) => this.stackRow(k), 'element', (k) => this.elements(k), depth);
    this.store = rows('store', (k) => this.storeRow(this.present[k]), 'constraint',
      (k) => this.present[k], stored);
    this.bindings = rows('bindings', (k) => this.bindingRow(this.bound[k]), 'transition',
      (k) => run.boundAt[this.bound[k]], run.named.length);
    this.history = rows('history', (k) => this.historyRow(run.firings[k]), 'firing',
      (k) => run.firings[k], run.firings.length);
    this.parts = [this.steps, this.stack, this.store, this.bindings, this.history,
      this.detail.rows, this.program];
  }

  // The k-th element shown of the stack: the one that went, if one did, and those that are there.
  elements(k) {
    const { walked, run: { nodes } } = this;
    while (walked.length <= k) walked.push(nodes.next[walked[walked.length - 1]]);
    return walked[k];
  }

  stepRow(t) {
    const isFound = holds(this.search.found, t);
    const isFollowed = holds(this.followed, t);
    return { parts: this.run.parts(t, ROW_LENGTH), sign: isFound ? '◆' : isFollowed ? '•' : '',
      classes: `${t === this.t ? 'current ' : ''}${this.run.isFiring(t) ? 'firing ' : ''}`
        + `${isFound || isFollowed ? 'marked' : ''}` };
  }

  // A row of the state, marked where it came, or where a binding changed it.
  textRow(text, sign, id) {
    const { printer } = this.run;
    const time = sign === '−' ? this.t - 1 : this.t;
    printer.changed = false;
    const shown = text(time);
    const isChanged = printer.changed && time === this.t;
    return { parts: [['', shown]], sign: sign || (isChanged ? '~' : ''), ...this.taken(id) };
  }

  // The head that a constraint was taken at, and what says so.
  taken(id) {
    const { rule, fires, took } = this.moment;
    const { kind, key } = this.choice;
    const classes = id && kind === 'constraint' && key === id ? 'chosen' : '';
    if (!took.has(id)) return { classes };
    const head = took.get(id);
    const fate = this.run.rules[rule].heads[head].removed ? 'removed' : 'kept';
    return { classes, head, tag: fires ? `head ${head + 1}, ${fate}` : `tried, head ${head + 1}` };
  }

  stackRow(k) {
    const { run, t } = this;
    const node = this.elements(k);
    const sign = this.gone && k === 0 ? '−' : t > 0 && run.nodes.origin[node] === t ? '+'
      : k === 0 && 'f!'.includes(run.kinds[t]) ? '!' : '';
    return this.textRow((time) => run.element(node, time, ROW_LENGTH), sign, run.nodes.id[node]);
  }

  storeRow(id) {
    const { run, t } = this;
    const sign = run.wentAt[id] === t ? '−' : run.cameAt[id] === t ? '+' : '';
    return this.textRow((time) => run.known(id, time, ROW_LENGTH), sign, id);
  }

  bindingRow(variable) {
    const sign = this.run.boundAt[variable] === this.t ? '+' : '';
    return this.textRow((time) => this.run.binding(variable, time, ROW_LENGTH), sign);
  }

  historyRow(t) {
    const { kind, key } = this.choice;
    return { parts: [['', this.run.firing(t)]], sign: t === this.t ? '+' : '', tag: `at ${t}`,
      classes: kind === 'firing' && key === t ? 'chosen' : '' };
  }

  // -- Moving

  go(wanted) {
    const t = Math.max(0, Math.min(this.run.last, wanted));
    if (t === this.t) return;
    this.t = t;
    this.refresh(true);
  }

  // Draws all that depends on the transition and on what is chosen; the lists scroll to what is
  // new where it moved.
  refresh(hasMoved) {
    const { run, t, choice } = this;
    this.moment = run.ruleAt(t);
    this.gone = 'adxrst'.includes(run.kinds[t]) ? run.top[t - 1] : 0;
    this.walked = this.gone ? [this.gone, run.top[t]] : [run.top[t]];
    this.present = run.storeAt(t, true);
    this.bound = run.boundBy(t);
    byId('slider').value = t;
    byId('slider').setAttribute('aria-valuetext', run.line(t, 200));
    byId('place').textContent = `${grouped(t)} / ${grouped(run.last)}`;
    byId('needle').style.left = `${run.last ? (100 * t) / run.last : 0}%`;
    this.showNow();
    const { rule, fires } = this.moment;
    this.program.mark(this.moment, choice.kind === 'rule' ? choice.key : -1);
    byId('rule-now').textContent = rule < 0 ? ''
      : `${run.rules[rule].name} ${fires ? 'fires' : 'does not fire'}`;
    this.steps.cursor = t;
    const depth = run.nodes.depth[run.top[t]];
    const [bound, fired] = [this.bound.length, run.fired[t]];
    const newest = this.bound.findIndex((k) => run.boundAt[k] === t);
    const shown = [[this.steps, run.last + 1, t],
      [this.stack, depth + (this.gone ? 1 : 0), 0, depth],
      [this.store, this.present.length, this.storePlace(), run.stored[t]],
      [this.bindings, bound, newest, bound], [this.history, fired, fired - 1, fired]];
    for (const [rows, count, place, total] of shown) {
      rows.show(count);
      if (hasMoved && place >= 0) rows.reveal(place);
      rows.draw();
      if (total >= 0) this.showTotal(rows.element, total);
    }
    this.detail.show(choice, t);
    byId('note').textContent = '';
    for (const part of this.parts) part.place();
    clearTimeout(this.resting);
    this.resting = setTimeout(() => this.rest(), 120);
  }

  showTotal(element, total) {
    element.dataset.total = total;
    element.parentElement.querySelector('.count').textContent = grouped(total);
  }

  // The place in the store to look at: what came, or else what was taken.
  storePlace() {
    const { run, t, present } = this;
    const last = present.length - 1;
    if (last >= 0 && run.cameAt[present[last]] === t) return last;
    return present.findIndex((id) => this.moment.took.has(id) || id === run.subject[t]);
  }

  // The line of the transition, in which the constraint, the rule and the numbers can be opened.
  showNow() {
    const { run, t, moment: { took } } = this;
    byId('now').replaceChildren(...run.parts(t, ROW_LENGTH).flatMap(([name, text]) => {
      const id = run.subject[t];
      if (name === 'label') return [' ', this.link('rule', run.steps[t][1], text.trim())];
      if (name === 'term' && id) {
        const colour = took.has(id) ? `head head-${took.get(id)}` : '';
        return [' ', this.link('constraint', id, text.trim(), `link ${colour}`)];
      }
      if (name !== 'ids') return [make('span', name, text)];
      return [...took].flatMap(([other, head]) => [head ? ',' : ' ',
        this.link('constraint', other, `${other}`, `link head head-${head}`,
          `constraint ${other}, head ${head + 1}`)]);
    }));
  }

  // What is said and written once the moves come to rest.
  rest() {
    byId('live').textContent = `Transition ${this.run.line(this.t, 300)}`;
    try {
      window.history.replaceState(null, '', `#t=${this.t}`);
    } catch (error) {
      // Some browsers allow only so many in a while: the next rest writes it.
    }
  }

  readPlace(fragment) {
    const place = /^#t=(\\d+)$/.exec(fragment);
    if (place) this.t = Math.min(this.run.last, Number(place[1]));
    this.refresh(true);
  }

  // -- Choosing

  // A link to a constraint, a rule, a firing or a transition.
  link(kind, key, text, name = 'link', label = '') {
    return makeButton(name, text, (byKey) => this.open(kind, key, byKey), label);
  }

  // Opens what a link or a row names.
  open(kind, key, byKey) {
    const { id, origin } = this.run.nodes;
    if (kind === 'transition') this.go(key);
    else if (kind !== 'element') this.choose({ kind, key }, byKey);
    else if (id[key]) this.choose({ kind: 'constraint', key: id[key] }, byKey);
    else if (origin[key]) this.choose({ kind: 'firing', key: origin[key] }, byKey);
  }

  choose(choice, byKey) {
    const { kind, key } = choice;
    const { activeElement } = document;
    if (byKey && !byId('detail').contains(activeElement)) this.from = activeElement;
    this.choice = choice;
    this.followed = kind === 'constraint' ? this.run.allOf(key)
      : kind === 'rule' ? this.run.firingsOf(key) : [];
    this.refresh(false);
    this.showFound();
    if (byKey) byId('detail-name').focus({ preventScroll: true });
    if (kind === 'transition' || !matchMedia('(max-width: 800px)').matches) return;
    const isStill = matchMedia('(prefers-reduced-motion: reduce)').matches;
    byId('detail').scrollIntoView({ behavior: isStill ? 'auto' : 'smooth' });
  }

  letGo() {
    this.choose({ kind: 'transition' });
    if (this.from && this.from.isConnected) this.from.focus();
    this.from = undefined;
  }

  // Goes to the nearest transition of a list, after this one (1) or before it (-1).
  along(list, direction, what) {
    const t = list[direction > 0 ? countBelow(list, this.t + 1) : countBelow(list, this.t) - 1];
    const word = direction > 0 ? 'next' : 'previous';
    if (t === undefined) byId('note').textContent = `no ${word} ${what}`;
    else this.go(t);
  }

  // Goes along what is followed; where nothing of the kind is, follows what the transition has.
  follow(kind, direction) {
    const key = kind === 'rule' ? this.moment.rule : this.run.subject[this.t] || -1;
    if (this.choice.kind !== kind && key < 0) byId('note').textContent = `no ${kind} here`;
    else {
      if (this.choice.kind !== kind) this.choose({ kind, key });
      this.along(this.followed, direction, 'of it');
    }
  }

  showFound() {
    const { found, isOver, wanted } = this.search;
    byId('found').textContent = wanted === '' ? '' : isOver ? grouped(found.length) : '…';
    this.map.setMarks(wanted ? found : this.followed);
    this.steps.draw();
  }

  // -- Controls

  makeKeys() {
    const { run } = this;
    const go = (move) => () => this.go(this.t + move);
    const firing = (direction) => () => this.along(run.firings, direction, 'firing');
    const found = (direction) => () => this.along(this.search.found, direction, 'found');
    const follow = (kind, direction) => () => this.follow(kind, direction);
    this.keys = new Map([['ArrowRight', go(1)], ['ArrowDown', go(1)], ['j', go(1)],
      ['ArrowLeft', go(-1)], ['ArrowUp', go(-1)], ['k', go(-1)],
      ['Home', () => this.go(0)], ['End', () => this.go(run.last)],
      ['f', firing(1)], ['F', firing(-1)], ['n', found(1)], ['N', found(-1)],
      ['c', follow('constraint', 1)], ['C', follow('constraint', -1)],
      ['r', follow('rule', 1)], ['R', follow('rule', -1)], ['Escape', () => this.letGo()],
      ['/', () => byId('wanted').select()], ['?', () => byId('keys').showModal()]]);
  }

  act(key) {
    this.keys.get(key)();
  }

  makeControls() {
    const slider = byId('slider');
    slider.max = this.run.last;
    slider.addEventListener('input', () => this.go(Number(slider.value)));
    for (const button of document.querySelectorAll('button[data-key]')) {
      button.addEventListener('click', () => this.act(button.dataset.key));
    }
    document.addEventListener('keydown', (event) => {
      const field = event.target instanceof HTMLInputElement ? event.target.type : '';
      if (event.ctrlKey || event.metaKey || event.altKey || byId('keys').open) return;
      if (field === 'search' || (field && event.key.length > 1)) return;
      if (!this.keys.has(event.key)) return;
      event.preventDefault();
      this.act(event.key);
    });
    window.addEventListener('hashchange', (event) => {
      clearTimeout(this.resting);
      this.readPlace(new URL(event.newURL).hash);
    });
    const wanted = byId('wanted');
    wanted.addEventListener('input', () => this.search.start(wanted.value));
    wanted.addEventListener('keydown', (event) => {
      if (event.key === 'Enter') this.act(event.shiftKey ? 'N' : 'n');
      if (event.key === 'Escape') {
        wanted.value = '';
        this.search.start('');
        byId('steps').focus();
      }
      if (event.key === 'Enter' || event.key === 'Escape') event.preventDefault();
    });
  }
}

const page = new Page(JSON.parse(byId('run').textContent));
window.stateText = (t) => page.run.stateText(t);
})();
</script>
</body>
</html>
";
