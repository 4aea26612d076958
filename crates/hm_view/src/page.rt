// The two constant parts of a page: what stands before its lines, and what stands after them. They are the files in
// crates/stored_examples/data/races/page, as `tools/view_page.py --constants` writes them here.
ghost use Rattle.std.specs.Prelude.{◌≡◌};
ghost use Rattle.hm_view.specs.Page.{page_head, page_end};

/// The page's head, up to its lines: how it looks.
const HEAD: &[u8] = br##"<!DOCTYPE html>
<html lang="en">
<head>
<meta charset="utf-8">
<meta name="viewport" content="width=device-width, initial-scale=1">
<title>hmmview</title>
<style>
:root { color-scheme: light dark; --bg: #fff; --fg: #1a1a1a; --dim: #6a6a6a; --line: #d8d8d8; --on: #fff3c4;
  --bar: #b8c4d0; --soft: #f2f4f6; --answer: #00694a; --lock: #7a5200; --place: #004f8c; --guard: #9a3d00;
  --move: #7b3069; --table: #3a3a9a; --wait: #a80000; --step: #4a4a4a; }
@media (prefers-color-scheme: dark) { :root { --bg: #16181a; --fg: #e8e8e8; --dim: #a0a0a0; --line: #3a3d40;
  --on: #45401c; --bar: #4a5866; --soft: #202326; --answer: #4fd0a5; --lock: #e6b04a; --place: #6db8f2;
  --guard: #f29a5a; --move: #e39ccb; --table: #aab0ff; --wait: #ff8a80; --step: #c0c0c0; } }
@media print { :root { --bg: #fff; --fg: #000; --dim: #444; --line: #bbb; --on: #eee; --bar: #999; --soft: #f4f4f4;
  --answer: #00694a; --lock: #7a5200; --place: #004f8c; --guard: #9a3d00; --move: #7b3069; --table: #3a3a9a;
  --wait: #a80000; --step: #333; } }
* { box-sizing: border-box; }
html, body { margin: 0; background: var(--bg); color: var(--fg); font: 14px/1.4 system-ui, sans-serif; }
.js body { display: grid; grid-template: auto minmax(0, 1fr) / minmax(0, 1fr); height: 100vh; height: 100dvh; }
.js #data { display: none; }
.away { position: absolute; width: 1px; height: 1px; margin: 0; overflow: hidden; clip-path: inset(50%); }
a { color: inherit; }
button { font: inherit; color: inherit; background: var(--soft); border: 1px solid var(--line); border-radius: 4px;
  padding: .1rem .6rem; }
button[aria-pressed=true], button[aria-selected=true] { background: var(--bar); }
kbd, .mono, .row, #state, #script { font-family: ui-monospace, "DejaVu Sans Mono", monospace; font-size: 12.5px; }
kbd { border: 1px solid var(--line); border-radius: 3px; padding: 0 .25em; }
.answer { color: var(--answer); } .lock { color: var(--lock); } .place { color: var(--place); }
.guard { color: var(--guard); } .move { color: var(--move); } .table { color: var(--table); }
.step { color: var(--step); } .waits { color: var(--wait); } .goes { color: var(--dim); }

/* the head: counts, findings, and where one is */
header { padding: .4rem .8rem; border-bottom: 1px solid var(--line); }
header p { margin: .2rem 0; }
#sums { display: flex; gap: 0 1.5rem; }
#counts { white-space: nowrap; }
#findings { display: flex; flex-wrap: wrap; gap: .2rem 1rem; align-items: baseline; }
#findings summary { cursor: pointer; }
#findings ul { margin: 0; padding: 0 0 0 1.2rem; list-style: none; max-height: 6.5rem; overflow: auto; }
#controls { display: flex; flex-wrap: wrap; gap: .2rem .6rem; align-items: center; margin: .2rem 0; }
#track { flex: 1 1 12rem; position: relative; height: 26px; }
#slider { position: absolute; inset: 0 0 8px; width: 100%; height: 18px; margin: 0; }
#marks { position: absolute; left: 8px; bottom: 0; width: calc(100% - 16px); height: 7px; }
#filter { font: inherit; width: 11rem; }
#chosen { min-width: 9rem; }
#help summary { color: var(--dim); cursor: pointer; }

/* the rows */
main { display: grid; grid-template-columns: minmax(0, 1fr) minmax(21rem, 30%); min-height: 0; }
#rows { overflow: auto; position: relative; outline-offset: -2px; overflow-anchor: none; }
#lanes { position: sticky; top: 0; z-index: 2; background: var(--bg); border-bottom: 1px solid var(--line);
  font-weight: bold; }
#field, #lanes { min-width: calc(8ch + var(--actors) * 25ch); font-family: ui-monospace, "DejaVu Sans Mono", monospace;
  font-size: 12.5px; }
#field { position: relative; contain: layout; }
.row { display: grid; grid-template-columns: 8ch repeat(var(--actors), minmax(25ch, 1fr)); height: 22px;
  line-height: 22px; }
#field .row { position: absolute; left: 0; right: 0; contain: strict; }
.row > * { padding: 0 .5ch; border-left: 3px solid transparent; white-space: pre; overflow: hidden;
  text-overflow: ellipsis; }
.row .at { color: var(--dim); text-align: right; position: sticky; left: 0; background: var(--bg);
  text-decoration: none; }
.row.on { background: var(--on); outline: 1px solid var(--fg); outline-offset: -1px; }
.row.on .at { background: inherit; }
.row .bar { border-left-color: var(--bar); }
.row .waiting { border-left-color: var(--wait); border-left-style: double; }
.row .entry { font-weight: bold; }
.row .op { background: var(--bar); border-radius: 3px; padding: 0 .4ch; margin-left: 1ch; }
.row .fold { border: 0; background: none; padding: 0 .5ch 0 0; color: var(--dim); cursor: pointer; font: inherit; }
.row .whole { grid-column: 2 / -1; color: var(--dim); }
.compact .row {
  grid-template-columns: calc(var(--digits) * 1ch + 1.6ch + 3px) repeat(var(--actors), var(--lane)) minmax(0, 1fr);
}
.compact #field, .compact #lanes { min-width: calc(var(--digits) * 1ch + var(--actors) * var(--lane) + 20ch); }
.compact .row > * { padding: 0 .3ch; }
.compact .row > :not(.at, .text, .whole) { padding: 0; text-overflow: clip; }
.compact .row > .text { padding-left: 1ch; }

/* the pane: what the row does, and what holds after it */
#pane { overflow: auto; border-left: 1px solid var(--line); padding: 0 .8rem 2rem; overflow-anchor: none;
  contain: strict; }
#now { position: sticky; top: 0; z-index: 1; background: var(--bg); padding: .3rem 0; max-height: 60%; overflow: auto;
  border-bottom: 1px solid var(--line); }
#now h2, #state summary { font: bold 1rem/1.4 system-ui, sans-serif; margin: 0; }
#now p { margin: .1rem 0; overflow-wrap: anywhere; }
#now ul, #state ul { margin: 0; padding: 0; list-style: none; overflow-wrap: anywhere; }
#now ins, #state ins { text-decoration: none; background: var(--on); font-weight: bold; }
#now ins::before { content: "+ "; } #now del::before { content: "- "; }
#now del { color: var(--dim); text-decoration: none; }
#tabs { display: flex; gap: .3rem; padding: .4rem 0; }
#state details { contain: layout style; }
#state summary { cursor: pointer; }
#script div { white-space: pre-wrap; overflow-wrap: anywhere; padding-left: 1ch; border-left: 3px solid transparent; }
#script .op, #script .used { background: var(--on); border-left-color: var(--fg); }
#script .gap { color: var(--dim); }

@media screen and (max-width: 700px) {
  header { padding: .2rem .5rem; }
  #keys { display: none; }
  #filter { width: 8rem; flex: 1 1 8rem; }
  #layout { display: none; }
  #sums { display: block; }
  #findings { flex-wrap: nowrap; overflow: auto; white-space: nowrap; max-height: 7rem; }
  button:not(.fold) { min-height: 32px; min-width: 36px; }
  main { grid-template: minmax(0, 1fr) minmax(0, 44%) / minmax(0, 1fr); }
  #pane { border-left: 0; border-top: 2px solid var(--bar); padding: 0 .5rem 1rem; }
  #now { position: static; max-height: none; }
}
@media screen and (max-height: 500px) { #now { position: static; max-height: none; } }
@media screen and (max-width: 700px) and (max-height: 500px) {
  main { grid-template: minmax(0, 1fr) / minmax(0, 1fr) 45%; }
  header p, #findings { display: none; }
}
@media print {
  .js body, main { display: block; height: auto; }
  #controls, #help, #tabs { display: none; }
  #rows, #pane, #now { overflow: visible; border: 0; contain: none; max-height: none; position: static; }
  .row { break-inside: avoid; }
}
</style>
<script>document.documentElement.className = 'js';</script>
</head>
<body>
<header>
<div id="sums"><p id="counts"></p><div id="findings" role="group" aria-label="findings"></div></div>
<div id="controls">
<button id="back" type="button" aria-label="previous row">&lsaquo;</button>
<button id="on" type="button" aria-label="next row">&rsaquo;</button>
<div id="track"><input id="slider" type="range" aria-label="row"><canvas id="marks" aria-hidden="true"></canvas>
</div>
<output id="chosen" for="slider"></output>
<input id="filter" type="search" placeholder="filter: p0 16" aria-label="show only rows with these words">
<output id="matches" for="filter"></output>
<button id="folds" type="button" aria-pressed="false" title="f">unfold</button>
<button id="layout" type="button" aria-pressed="false" title="c">narrow lanes</button>
</div>
<details id="help"><summary>Letters and keys</summary>
<p id="legend"></p>
<p id="keys"><kbd>&uarr;</kbd> <kbd>&darr;</kbd> <kbd>PgUp</kbd> <kbd>PgDn</kbd> <kbd>Home</kbd> <kbd>End</kbd> rows
&middot; <kbd>n</kbd> <kbd>p</kbd> findings &middot; <kbd>w</kbd> <kbd>W</kbd> where waits begin &middot;
<kbd>&rarr;</kbd> <kbd>&larr;</kbd> unfold, fold &middot; <kbd>f</kbd> all folds &middot; <kbd>/</kbd> filter,
<kbd>Enter</kbd> the next match &middot;
<kbd>c</kbd> narrow lanes &middot; <kbd>s</kbd> state or script</p>
</details>
</header>
<main>
<section id="rows" tabindex="0" role="listbox" aria-label="rows">
<div id="lanes" class="row" role="presentation"></div>
<div id="field" role="presentation"></div>
</section>
<aside id="pane" tabindex="-1" aria-label="after the row">
<div id="now"></div>
<div id="tabs" role="tablist">
<button id="tab-state" type="button" role="tab" aria-controls="state" aria-selected="true">State</button>
<button id="tab-script" type="button" role="tab" aria-controls="script" aria-selected="false">Script</button>
<button id="copy" type="button">copy script up to here</button>
</div>
<div id="state" role="tabpanel" aria-labelledby="tab-state"></div>
<div id="script" role="tabpanel" aria-labelledby="tab-script" hidden></div>
</aside>
</main>
<p id="said" class="away" aria-live="polite"></p>
<pre id="data">"##;

/// What stands after the lines: the script in plain JavaScript that puts them on the screen.
const TAIL: &[u8] = br##"</pre>
<script>
// The words of reports: their class and letter, and a sentence for each. Below the first line is JSON, which
// tools/explain.py reads too. In a sentence `{x}` is a field, and `{name x}` what the table `name` has for it: for the
// whole word, its first letter, `odd` or `even`, or `*`. In a table `{}` is the word, and `{#}` the word without its
// first letter.
const WORDS = {
  "letters": {
    "answer": ["A", "answer"],
    "lock": ["L", "mmap lock"],
    "place": ["P", "page table"],
    "guard": ["N", "notifier: an invalidation"],
    "move": ["M", "frames, migration"],
    "table": ["T", "mirror's table"],
    "step": ["S", "step between"]
  },
  "kinds": {
    "loaded": ["answer", "x a b", "{who x} reads {count b} byte(s)"],
    "stored": ["answer", "x a b", "{who x} writes {count b} byte(s)"],
    "failed": ["answer", "x a n c", "{who x} fails: {cause c}"],
    "mapped": ["answer", "p f n w", "mapped, of zeros: {pages f n}; the lock is released"],
    "unmapped": ["answer", "p f n", "unmapped: {pages f n}; the lock is released"],
    "protected": ["answer", "p f n w", "the right is {w} now: {pages f n}; the lock is released"],
    "forked": ["answer", "p c", "{c} is there, with what {p} has now; the lock is released"],
    "exited": ["answer", "p", "{p} is not there any more; the lock is released"],
    "attached": ["answer", "m d p f n q",
      "{d} has a mirror of {pages f n} of {p}; its interval has sequence {q}"],
    "detaching": ["answer", "m q", "{m} is detached, its table erased; its interval goes when sequence {q} ends"],
    "detached": ["answer", "m", "{m} is gone"],
    "refused": ["answer", "c", "the operation is refused: {cause c}"],
    "migrated": ["answer", "n", "the migration ends: {n} page(s) moved; the lock is released"],
    "seen": ["answer", "m v c", "page {v}: {code c}"],
    "evicted": ["answer", "n", "the eviction ends: {n} frame(s) emptied"],
    "removed": ["answer", "d", "the memory of {d} is gone for good"],
    "excluded": ["answer", "m v", "page {v} was taken for this actor alone; the lock is released"],
    "added": ["answer", "m a was now", "the addition ends: {was} became {now}"],
    "rlock": ["lock", "p", "the mmap lock of {p} is taken for reading"],
    "runlock": ["lock", "p", "the mmap lock of {p} is released"],
    "wlock": ["lock", "p", "the mmap lock of {p} is taken for writing"],
    "named": ["step", "p c", "the number of {c} is given away"],
    "take": ["move", "f", "{f}, the lowest free frame, is taken, zeroed and locked"],
    "drop": ["move", "f", "{f} is free"],
    "place": ["place", "p v kind f last", "page {v} of {p} {place kind}"],
    "start": ["guard", "p f n q",
      "an invalidation of {pages f n} of {p} begins; its sequence is {q}, {starting q}"],
    "told": ["guard", "m f n q", "{m} is invalidated: its table is erased there, its interval has sequence {q}"],
    "end": ["guard", "p f n q", "the invalidation of {pages f n} of {p} ends; its sequence is {q}, {ending q}"],
    "begin": ["table", "m q", "a look-up begins, and notes sequence {q}"],
    "retry": ["table", "m", "{m} was invalidated since its look-up began: it begins again"],
    "set": ["table", "m v f w at", "the table of {m} has {backing f} for page {v}, since line {at}"],
    "fresh": ["move", "p v", "page {v} is untouched: the migration will put a new frame there"],
    "copied": ["move", "f g k", "{f} is copied to {g}{part k}"],
    "committed": ["move", "f g", "the contents of {f} are those of {g} from now on"],
    "kept": ["move", "at why b", "{target at} stays: {reason why}{locker b}"],
    "done": ["move", "f", "{f} is unlocked"],
    "withdrawn": ["move", "d", "{d} gives out no frame any more"],
    "fetched": ["step", "m a b", "the addition has read {b}"]
  },
  "tables": {
    "who": { "p": "the CPU in {}", "m": "the device through {}" },
    "cause": {
      "1": "the page has no area, or the process is not there",
      "2": "the area is read-only",
      "3": "no system frame is free",
      "4": "the mirror is not attached, or the page is outside its window",
      "5": "a page has an area already",
      "6": "there would be more than 64 areas",
      "7": "the number is 0 or was given before",
      "8": "the process is not there",
      "9": "the mirror number was attached before",
      "10": "the device is removed"
    },
    "code": {
      "00": "nothing here, a migration entry, or another device has it",
      "11": "the zero page",
      "01": "system memory, read-only",
      "02": "system memory, writable",
      "21": "the device's own memory, read-only",
      "22": "the device's own memory, writable",
      "31": "an exclusive page"
    },
    "place": {
      "none": "is not mapped any more",
      "zero": "has the zero page, read-only",
      "sys": "has frame {f}, {right last}",
      "own": "lies in device memory, in {f}, {right last}",
      "moving": "becomes a migration entry: it is moved out of {f}, and is {right last} afterwards",
      "excl": "is for actor {number last} alone, in frame {f}"
    },
    "right": { "w": "writable", "r": "read-only" },
    "number": { "*": "{#}" },
    "starting": { "odd": "odd", "even": "even: it meets no mirror" },
    "ending": { "odd": "odd: another is under way", "even": "even" },
    "backing": { "zero": "zeros", "*": "{}" },
    "part": { "all": "", "*": ", part {} of 0 to 7" },
    "target": { "s": "{}", "d": "{}", "*": "page {}" },
    "reason": {
      "nothere": "it is not where it would be moved from",
      "noframe": "no frame is free where it would go",
      "skipped": "the skip line passes it over",
      "lost": "it got a frame meanwhile",
      "locked": ""
    },
    "locker": { "": "", "a": "actor {#} has its frame locked" }
  },
  "folded": "{f} is copied to {g}, parts {k} to {last}",
  "waits": {
    "lock": ["p b", "the mmap lock of {p}", "mmap lock {p}"],
    "moving": ["p v", "page {v} of {p}, which is being migrated", "{p} {v} moves"],
    "frame": ["f b", "frame {f}, which is locked", "{f} locked"],
    "told": ["m q", "the end of the invalidation that {m} was told of", "{m} told {q}"]
  },
  "waiting": "{a} waits for {blockers}: {what}"
};
</script>
<script>
// What the lines of a page say: the script, the rows, and what each row changes. Nothing here draws.
'use strict';

// ---- words, and the sentences of words.js

function expand(text, fields, word) {
  return text.replace(/\{([^{}]*)\}/g, (all, inner) => {
    const [name, ...of] = inner.split(' ');
    if (name === '') return word;
    if (name === '#') return word.slice(1);
    if (name === 'pages') return pagesText(fields[of[0]], fields[of[1]]);
    if (name === 'count') return String((fields[of[0]] || '').length / 2);
    if (!of.length) return fields[name] || '';
    return lookUp(WORDS.tables[name], fields[of[0]] || '', fields);
  });
}

function lookUp(table, word, fields) {
  const parity = Number(word) % 2 ? 'odd' : 'even';
  const key = [word, word[0], parity, '*'].find(k => k !== undefined && Object.hasOwn(table, k));
  return expand(table[key], fields, word);
}

const EVERY_PAGE = '68719476736';

function pagesText(first, count) {
  if (count === '1') return 'page ' + first;
  return count === EVERY_PAGE ? 'all pages' : 'pages ' + first + ' to ' + (+first + +count - 1);
}

const fieldsOf = (names, words) => Object.fromEntries(names.split(' ').map((name, i) => [name, words[i] || '']));

// what an entry says, as a sentence
function sentence(words) {
  const [, names, text] = WORDS.kinds[words[0]];
  return expand(text, fieldsOf(names, words.slice(1)), '');
}

const classOf = word => (WORDS.kinds[word] || ['step'])[0];
const letterOf = word => WORDS.letters[classOf(word)][0];

// ---- the state: what holds, as lines with keys that sort as they are shown

const wide = n => String(n).padStart(11, '0');
const frameKey = f => (f[0] === 's' ? '' : 'd' + wide(f.slice(1).split('.')[0])) + wide(f.replace(/^.*[sd.]/, ''));

const section = {
  process: p => 'A' + wide(p.slice(1)),
  mirror: m => 'B' + wide(m.slice(1)),
};
const FRAMES = 'C', LOCKS = 'D', DEVICES = 'E';

// the heading of the section that a key is in
function headingOf(key) {
  const kind = key[0];
  if (kind === 'A') return 'Process p' + Number(key.slice(1, 12));
  if (kind === 'B') return 'Mirror m' + Number(key.slice(1, 12));
  return kind === FRAMES ? 'Frames held' : kind === LOCKS ? 'mmap locks' : 'Devices';
}
const sectionOf = key => key.slice(0, key[0] === 'A' || key[0] === 'B' ? 12 : 1);

// the areas with this right in a span of pages, or, with none, without the span
function cut(areas, first, end, right) {
  const parts = ([a, b, old]) => [[a, Math.min(b, first), old], [Math.max(a, first), Math.min(b, end), right],
    [Math.max(a, end), b, old]];
  return areas.flatMap(parts).filter(([a, b, w]) => a < b && w);
}

// the bytes of a page that are not zero, as runs: 4142 at 0x10000
function bytesText(page, bytes) {
  const runs = [];
  for (const i of [...bytes.keys()].filter(k => bytes.get(k).digits !== '00').sort((x, y) => x - y)) {
    const run = runs[runs.length - 1], { digits } = bytes.get(i);
    if (run && run.end === i) { run.text += digits; run.end += 1; }
    else runs.push({ from: i, end: i + 1, text: digits });
  }
  return runs.map(r => r.text + ' at 0x' + (page * 4096 + r.from).toString(16)).join(', ');
}

// a map in a map of maps, which is made if it is not there
function mapIn(maps, key) {
  if (!maps.has(key)) maps.set(key, new Map());
  return maps.get(key);
}

// What holds, put together of the lines of changes alone.
class State {
  constructor() {
    this.there = new Set();
    this.areas = new Map();         // of each process: first page, page after the last, right
    this.places = new Map();        // of each process, by page
    this.bytes = new Map();         // of each process, by page: a map from offset to byte, and who wrote it
    this.tables = new Map();
    this.mirrors = new Map();
    this.seq = new Map();
    this.held = new Set();
    this.locker = new Map();
    this.guards = new Map();        // of each actor: the process of its invalidation
    this.lines = new Map();
    this.changed = [];
    this.row = 0;                   // whose changes these are
  }

  // a line of the state is this text from now on; none: it is gone
  put(key, text) {
    const old = this.lines.get(key);
    if (old === text) return;
    if (text === undefined) this.lines.delete(key); else this.lines.set(key, text);
    this.changed.push([key, old, text]);
  }

  // the changes since this was last asked, one for each line: key, old text, new text
  takeChanges() {
    const changed = this.changed;
    this.changed = [];
    if (changed.length < 2) return changed;
    const byKey = new Map();
    for (const [key, old, text] of changed) {
      if (byKey.has(key)) byKey.get(key)[2] = text; else byKey.set(key, [key, old, text]);
    }
    return [...byKey.values()].filter(x => x[1] !== x[2]);
  }

  // the lines of a process are shown while it is there, or has a page
  tellProcess(p) {
    const there = this.there.has(p), known = there || mapIn(this.places, p).size > 0;
    this.put(section.process(p) + '0', known ? 'sequence ' + this.seq.get(p) : undefined);
    this.put(section.process(p) + '1', known && !there ? 'is not there' : undefined);
  }

  tellAreas(p, areas) {
    const old = this.areas.get(p) || [], key = a => section.process(p) + '2' + wide(a[0]);
    this.areas.set(p, areas);
    const now = new Set(areas.map(key));
    for (const a of old) if (!now.has(key(a))) this.put(key(a));
    for (const a of areas) this.put(key(a), 'area ' + pagesText(String(a[0]), String(a[1] - a[0])) + ' ' + a[2]);
    for (const page of mapIn(this.bytes, p).keys()) this.tellBytes(p, page);
  }

  tellPlace(p, page, text) {
    if (text) mapIn(this.places, p).set(page, text); else mapIn(this.places, p).delete(page);
    this.put(section.process(p) + '3' + wide(page) + 'a', text && 'page ' + page + ' is ' + text);
    this.tellProcess(p);
  }

  // the bytes of a page are shown while it has an area
  tellBytes(p, page) {
    const bytes = mapIn(this.bytes, p).get(page), areas = this.areas.get(p) || [];
    const text = bytes && areas.some(([a, b]) => a <= page && page < b) && bytesText(page, bytes);
    this.put(section.process(p) + '3' + wide(page) + 'b', text ? 'page ' + page + ' reads ' + text : undefined);
  }

  // the rows that wrote the bytes which somebody reads there
  writers(who, at, n) {
    const p = who[0] === 'm' ? this.mirrors.get(who).process : who, rows = new Set();
    for (let i = 0; i < n; i++) {
      const byte = (mapIn(this.bytes, p).get(Math.floor((at + i) / 4096)) || new Map()).get((at + i) % 4096);
      if (byte) rows.add(byte.row);
    }
    return [...rows];
  }

  tellFrame(f) {
    const by = this.locker.get(f);
    this.put(FRAMES + frameKey(f), this.held.has(f) ? f + (by ? ' locked by ' + by : '') : undefined);
  }

  tellTable(m, page, text) {
    if (text) mapIn(this.tables, m).set(page, text); else mapIn(this.tables, m).delete(page);
    this.put(section.mirror(m) + '2' + wide(page), text && 'page ' + page + ' has ' + text);
  }

  erase(m, first, end) {
    for (const page of [...mapIn(this.tables, m).keys()]) if (page >= first && page < end) this.tellTable(m, page);
  }

  tellMirror(m, is) {
    const x = { ...this.mirrors.get(m), ...is }, gone = x.stage === 'gone';
    this.mirrors.set(m, x);
    this.put(section.mirror(m) + '0', gone ? undefined : x.device + ' of ' + x.process + ', window ' + x.window
      + (x.stage === 'detaching' ? ', detaching' : ''));
    this.put(section.mirror(m) + '1', gone ? undefined : 'interval at ' + x.interval);
  }
}

// what each line of a change says, by its first word
const CHANGES = {
  reads(s, [a, p]) { s.put(LOCKS + wide(a.slice(1)), a + ' reads ' + p); },
  writes(s, [a, p]) { s.put(LOCKS + wide(a.slice(1)), a + ' writes ' + p); },
  unlock(s, [a]) { s.put(LOCKS + wide(a.slice(1))); },
  held(s, [f]) { s.held.add(f); s.tellFrame(f); },
  free(s, [f]) { s.held.delete(f); s.tellFrame(f); },
  locked(s, [f, a]) { s.locker.set(f, a); s.tellFrame(f); },
  loose(s, [f]) { s.locker.delete(f); s.tellFrame(f); },
  there(s, [p]) { s.there.add(p); s.tellProcess(p); },
  left(s, [p]) { s.there.delete(p); s.tellProcess(p); },
  sequence(s, [p, n]) { s.seq.set(p, n); s.tellProcess(p); },
  area(s, [p, first, n, right]) {
    const areas = [...(s.areas.get(p) || []), [+first, +first + +n, right]];
    s.tellAreas(p, areas.sort((x, y) => x[0] - y[0]));
  },
  cut(s, [p, first, n]) { s.tellAreas(p, cut(s.areas.get(p) || [], +first, +first + +n)); },
  right(s, [p, first, n, right]) { s.tellAreas(p, cut(s.areas.get(p) || [], +first, +first + +n, right)); },
  bare(s, [p]) { s.tellAreas(p, []); },
  copy(s, [p, to]) {
    s.bytes.set(to, new Map(mapIn(s.bytes, p)));
    s.tellAreas(to, s.areas.get(p) || []);
  },
  bytes(s, [p, at, digits]) {
    for (let i = 0; 2 * i < digits.length; i++) {
      const page = Math.floor((+at + i) / 4096), old = mapIn(s.bytes, p).get(page);
      const bytes = i && (+at + i) % 4096 ? old : new Map(old);
      bytes.set((+at + i) % 4096, { digits: digits.substr(2 * i, 2), row: s.row });
      mapIn(s.bytes, p).set(page, bytes);
    }
    for (const page of mapIn(s.bytes, p).keys()) s.tellBytes(p, page);
  },
  zeros(s, [p, first, n]) {
    for (const page of [...mapIn(s.bytes, p).keys()]) {
      if (page < +first || page >= +first + +n) continue;
      mapIn(s.bytes, p).delete(page);
      s.tellBytes(p, page);
    }
  },
  place(s, [p, page, ...x]) { s.tellPlace(p, +page, x[0] === 'none' ? undefined : x.join(' ')); },
  guard(s, [a, p, first, n]) {
    s.guards.set(a, p);
    s.put(section.process(p) + '4' + wide(a.slice(1)), a + ' invalidates ' + pagesText(first, n));
  },
  unguard(s, [a]) {
    s.put(section.process(s.guards.get(a)) + '4' + wide(a.slice(1)));
    s.guards.delete(a);
  },
  attached(s, [m, device, process, first, n]) {
    s.tellMirror(m, { device, process, window: pagesText(first, n), stage: 'attached', interval: '0' });
  },
  stage(s, [m, stage]) { s.tellMirror(m, { stage }); },
  interval(s, [m, interval]) { s.tellMirror(m, { interval }); },
  set(s, [m, page, f, right]) { s.tellTable(m, +page, f + ' ' + right); },
  erase(s, [m, first, n]) { s.erase(m, +first, +first + +n); },
  clear(s, [m]) { s.erase(m, 0, Infinity); },
  withdrawn(s, [d]) { s.put(DEVICES + wide(d.slice(1)), d + ' withdrawn'); },
  removed(s, [d]) { s.put(DEVICES + wide(d.slice(1)), d + ' removed'); },
};

// ---- waits

// what an actor waits for, and whom; a word that tells no blocker is looked up in the state
function waitOf(word, s) {
  const [why, ...rest] = word.split('/'), [names, long, short] = WORDS.waits[why];
  const fields = fieldsOf(names, rest);
  let blockers = fields.b ? [fields.b] : [];
  if (why === 'moving') {
    const frame = ((s.places.get(fields.p) || new Map()).get(+fields.v) || '').split(' ')[1];
    if (s.locker.has(frame)) blockers = [s.locker.get(frame)];
  } else if (why === 'told') {
    const p = s.mirrors.get(fields.m).process;
    blockers = [...s.guards].filter(([, q]) => q === p).map(([a]) => a).sort((x, y) => x.slice(1) - y.slice(1));
  }
  const tellsBlocker = 'b' in fields;
  return { word, blockers, tellsBlocker, long: expand(long, fields, ''), short: expand(short, fields, '') };
}

function waitSentence(a, wait) {
  const blockers = wait.blockers.join(' and ') || 'nobody';
  return expand(WORDS.waiting, { a, blockers, what: wait.long }, '');
}
const waitShort = wait => '\u2016 ' + (wait.blockers.join(', ') || 'nobody') + ': ' + wait.short;

// ---- operations: which entry begins one, and which ends it

function piecesOf([word, , at, x]) {
  if (!/^d?(load|store)$/.test(word)) return 1;
  const n = /load/.test(word) ? +x : x.length / 2;
  return Number(at) % 4096 + n > 4096 ? 2 : 1;
}
const ENDS = new Set(('mapped unmapped protected forked exited attached detached migrated evicted removed excluded '
  + 'added refused').split(' '));
const ANSWERS = new Set(['loaded', 'stored', 'failed']);

class Actor {
  constructor() { this.ops = []; this.at = 0; this.pieces = 0; this.begun = false; }

  // the operation that an entry is of, whether it is its first entry
  take(words) {
    const op = this.ops[this.at] || { words: ['?'], line: -1 }, isFirst = !this.begun;
    this.begun = true;
    if (ANSWERS.has(words[0])) this.pieces += 1;
    const ends = ANSWERS.has(words[0]) ? this.pieces >= piecesOf(op.words)
      : ENDS.has(words[0]) || (words[0] === 'runlock' && op.words[0] === 'snap');
    if (ends) { this.at += 1; this.pieces = 0; this.begun = false; }
    return { op, isFirst };
  }
}

// ---- reading

const SCHEDULE = /^(turns|drain)$/, HEADS = /^(hmm|frames|device|skip)$/;

class Report {
  // of a page's lines; the set-up is the first lines of the schedule, as many as are given, or is found
  constructor(text, setUpLines) {
    this.script = [];
    this.schedule = [];         // the script's lines of turns: line, actor, count
    this.actors = [];
    this.findings = [];
    this.rows = [];
    this.open = [];             // operations that have not ended
    this.from = 0;
    this.count = 0;
    this.state = new State();
    this.begins = [];           // the changes before the first row
    this.made = new Map();      // of each line of the state, the rows that changed it
    this.told = new Map();      // of each mirror, the rows that told it
    this.looks = new Map();     // of each actor and mirror, the row at which its look-up began
    this.readLines(text.split('\n'));
    this.useSchedule();
    this.setUp = setUpLines === undefined ? this.findSetUp() : this.rowsOf(setUpLines);
    this.addFindings();
  }

  readLines(lines) {
    let part = 'script', stands = null;
    this.begun = [];            // whose operation is under way
    for (const text of lines) {
      if (part === 'script') {
        if (text === 'findings') part = 'findings'; else this.readScript(text);
      } else if (text[0] === '=') this.change(text.split(' '));
      else {
        this.endRow();
        if (text[0] === ':') stands = text.slice(2).split(' ').filter(x => x);
        else if (part === 'rows' && text[0] >= '0' && text[0] <= '9') {
          this.beginRow(text.split(' '), stands);
          stands = null;
        } else this.readOther(text.split(' '), part);
      }
      if (part === 'findings' && text.startsWith('rows ')) part = 'rows';
    }
    this.last = stands && this.standsOf(stands);
  }

  change([, word, ...words]) { CHANGES[word](this.state, words); }

  // the changes since the last row began are its own
  endRow() {
    const row = this.rows[this.rows.length - 1], changes = this.state.takeChanges();
    if (!row) this.begins.push(...changes);
    if (!row || row.changes) return;
    row.changes = changes;
    for (const [key] of changes) {
      if (!this.made.has(key)) this.made.set(key, []);
      this.made.get(key).push(row.at);
    }
  }

  // the last row, up to this one, that made a line of the state what it is; none: it was so before the first row
  madeBy(key, at) { return (this.made.get(key) || []).filter(x => x <= at).pop(); }

  // the rows that a row goes back to: a load to the stores of its bytes, a retry to what told its mirror
  causesOf({ actor, words: [word, m, at, digits] }, row) {
    if (word === 'begin') this.looks.set(actor + m, row);
    if (word === 'told' || word === 'detaching') this.told.set(m, [...(this.told.get(m) || []), row]);
    if (word === 'retry') return (this.told.get(m) || []).filter(x => x > this.looks.get(actor + m)).slice(0, 1);
    if (word === 'loaded' || word === 'fetched') return this.state.writers(m, +at, digits.length / 2);
    return [];
  }

  readScript(text) {
    const words = text.split(' '), line = this.script.length;
    if (text === '') return;
    this.script.push(text);
    if (words[0] === 'actor') this.actors.push(new Actor());
    else if (SCHEDULE.test(words[0])) this.schedule.push({ line, actor: 'a' + words[1], count: +words[2] });
    else if (!HEADS.test(words[0])) this.actors[this.actors.length - 1].ops.push({ words, line });
  }

  readOther(words, part) {
    if (words[0] === 'rows') this.from = +words[1];
    else if (words[0] === 'unfinished') this.open.push([words[1], +words[2]]);
    else if (words[0] === 'end') this.count = +words[1];
    else if (part === 'findings' && words.length > 2) {
      this.findings.push({ at: +words[0], kind: words[2], text: words.slice(1).join(' '), count: +words[3] });
    }
  }

  // how the actors stand: `+`, `-`, or a wait, which is the same object as long as it lasts
  standsOf(words) {
    const before = this.standing || [];
    this.standing = words.map((word, a) => {
      if (word === '+' || word === '-') return word;
      const old = before[a];
      if (old && old.word === word && old.tellsBlocker) return old;
      const wait = waitOf(word, this.state);
      if (old && old.word === word && old.blockers.join() === wait.blockers.join()) return old;
      wait.since = old && old.word === word ? old.since : this.rows.length;
      return wait;
    });
    return this.standing;
  }

  beginRow(words, stands) {
    const row = { at: +words[0], actor: words[1], words: words.slice(2), stands: stands && this.standsOf(stands) };
    this.rows.push(row);
    const a = +row.actor.slice(1), { op, isFirst } = this.actors[a].take(row.words);
    row.op = op;
    row.isFirst = isFirst;
    if (!this.begun[a]) this.begun = Object.assign(this.begun.slice(), { [a]: true });
    row.begun = this.begun;
    row.begunAfter = this.actors[a].begun;
    if (!row.begunAfter) this.begun = Object.assign(this.begun.slice(), { [a]: false });
    row.isLoss = row.words[0] === 'place' && this.isLoss(row);
    row.causes = this.causesOf(row, row.at);
    this.state.row = row.at;
  }

  // whether a page that another actor had alone gets another place
  isLoss({ actor, words: [, p, page] }) {
    const was = mapIn(this.state.places, p).get(+page) || '';
    return was.startsWith('excl ') && was.split(' ')[2] !== actor;
  }

  // which line of the schedule each row is a turn of. A line ends early if its actor waits or is done, and then the
  // next entry is somebody else's. Rows that no line accounts for have none.
  useSchedule() {
    let i = 0, used = 0;
    for (const row of this.rows) {
      while (i < this.schedule.length && !this.isTurn(this.schedule[i], used, row)) { i += 1; used = 0; }
      if (i === this.schedule.length) return;
      used += 1;
      row.turn = this.schedule[i];
      row.used = used;
    }
  }

  isTurn(line, used, row) {
    return !line.count || (line.actor === row.actor && used < line.count);
  }

  // the rows that are findings besides the lines: a wait begins, an exclusive page is lost
  addFindings() {
    this.waits = [];            // the rows at which a wait begins
    for (const row of this.rows) {
      if (row.isLoss) this.findings.push({ at: row.at, kind: 'lost', text: row.actor + ' ' + row.words.join(' ') });
      (row.stands || []).forEach((wait, a) => {
        if (wait.since !== row.at || row.at < this.setUp) return;
        this.waits.push(row.at);
        this.findings.push({ at: row.at, kind: 'wait', text: waitSentence('a' + a, wait) });
      });
    }
  }

  // the script with a schedule that makes the rows up to this one, and no more
  scriptUpTo(at) {
    const isTurn = new Set(this.schedule.map(x => x.line)), runs = [];
    for (const row of this.rows.slice(0, at + 1)) {
      const run = runs[runs.length - 1];
      if (run && run.actor === row.actor) run.count += 1; else runs.push({ actor: row.actor, count: 1 });
    }
    return [...this.script.filter((x, i) => !isTurn.has(i)),
      ...runs.map(run => 'turns ' + run.actor.slice(1) + ' ' + run.count), ''].join('\n');
  }

  // how many rows the first lines of the schedule have
  rowsOf(lines) {
    const at = this.rows.findIndex(row => !row.turn || this.schedule.indexOf(row.turn) >= lines);
    return at < 0 ? this.rows.length : at;
  }

  // how many rows come before the race: whole operations of one actor, before another has a row
  findSetUp() {
    let end = this.rows.findIndex(row => row.actor !== this.rows[0].actor);
    if (end < 0) return 0;
    while (end > 0 && !this.rows[end].isFirst) end -= 1;
    const under = this.rows[end].actor !== this.rows[0].actor && this.rows[end - 1].begunAfter;
    while (under && !this.rows[--end].isFirst);
    return end;
  }

  // how many rows from there on are parts of one copy
  copies(at) {
    const [word, from, to, part] = this.rows[at].words;
    if (word !== 'copied' || part === 'all') return 1;
    let n = 1;
    for (; at + n < this.rows.length; n++) {
      const row = this.rows[at + n], [w, f, t, k] = row.words;
      if (w !== word || f !== from || t !== to || +k !== +part + n || row.actor !== this.rows[at].actor) break;
    }
    return n;
  }

  // whether a row is about all these words: its own, its actor, or a page in its span
  mentions(row, words) {
    return words.every(word => word === row.actor || row.words.includes(word)
      || (/^\d+$/.test(word) && spans(row, +word)));
  }
}

const SPANS = { start: 2, told: 2, end: 2, mapped: 2, unmapped: 2, protected: 2, attached: 4 };

function spans(row, page) {
  const i = SPANS[row.words[0]];
  return i !== undefined && page >= +row.words[i] && page < +row.words[i] + +row.words[i + 1];
}

// The lines that hold after a row. Going to a row applies the changes between, forwards or backwards.
class Walk {
  constructor(report) {
    this.report = report;
    this.lines = new Map();
    this.next = 0;              // how many rows are applied
    for (const [key, , text] of report.begins) this.lines.set(key, text);
  }

  set(key, text, touched) {
    if (text === undefined) this.lines.delete(key); else this.lines.set(key, text);
    touched.add(key);
  }

  // goes to what holds after the row, and tells the keys of the lines that may be others
  goTo(at) {
    const touched = new Set(), rows = this.report.rows;
    for (; this.next <= at; this.next++) {
      for (const [key, , text] of rows[this.next].changes) this.set(key, text, touched);
    }
    for (; this.next > at + 1; this.next--) {
      for (const [key, old] of rows[this.next - 1].changes) this.set(key, old, touched);
    }
    return touched;
  }
}
</script>
<script>
// Puts a report on the screen: its rows as lanes, and beside them what the chosen row does and what holds after it.
'use strict';

const byId = id => document.getElementById(id);
const make = (name, cls, text) => {
  const e = document.createElement(name);
  if (cls) e.className = cls;
  if (text !== undefined) e.textContent = text;
  return e;
};
const plural = (n, one, many) => n + ' ' + (n === 1 ? one : many || one + 's');
const HIGH = 22, ALL = 2000, SMALL = 60;

// what is on the screen
let report, walk, chosen, items, itemAt, drawn, sections, marked;
const how = { folded: true, unfolded: new Set(), words: [], printing: false, off: new Set(), tab: 'state',
  narrow: null, compact: false };

const entryText = row => row.actor + ' ' + row.words.join(' ');
const opText = op => op.words.join(' ');

// ---- items: a row, or rows that are folded into one. A folded item stands for its last row.

function foldAt(at) {
  if (how.words.length || !how.folded || how.printing) return 1;
  if (at === 0 && report.from === 0 && report.setUp > 3) return report.setUp;
  return report.copies(at);
}

function layOut() {
  const n = report.rows.length;
  items = [];
  itemAt = new Int32Array(n).fill(-1);
  for (let at = report.from; at < n;) {
    const count = foldAt(at), isOpen = how.unfolded.has(at), fold = count > 1 ? at : -1;
    for (let i = at; i < at + count; i = items[items.length - 1].hi + 1) {
      if (how.words.length && !report.mentions(report.rows[i], how.words)) break;
      const hi = isOpen ? i : at + count - 1;
      itemAt.fill(items.length, i, hi + 1);
      items.push({ lo: i, hi, fold });
    }
    at += count;
  }
  for (const e of (drawn || new Map()).values()) e.remove();
  drawn = new Map();
  tellMatches();
  byId('field').style.height = (items.length + 1) * HIGH + 'px';
  drawEnd();
}

// the item of a row, or the next after it
function itemNear(at) {
  let lo = 0, hi = items.length;
  while (lo < hi) {
    const mid = (lo + hi) >> 1;
    if (items[mid].hi < at) lo = mid + 1; else hi = mid;
  }
  return Math.min(lo, items.length - 1);
}

// lays out again and keeps the chosen row where it is seen
function again() {
  layOut();
  drawMarks();
  if (items.length) choose(items[itemNear(chosen)].hi, true); else draw();
}

// ---- rows

const isWait = x => typeof x === 'object' && x !== null;

// how an actor stands: its wait in words where it begins, and else a mark
function standingInto(cell, stand, isFirstShown) {
  if (stand === '+') cell.append(make('span', 'goes', '\u00b7'));
  if (!isWait(stand)) return;
  cell.classList.add('waiting');
  if (isFirstShown && !how.compact) cell.append(make('span', 'waits', waitShort(stand)));
  else if (isFirstShown) cell.append(make('span', 'waits', '\u2016'));
}

const beginsAt = (row, wait) => isWait(wait) && (wait.since === row.at || row.at === report.from);

function entryInto(cell, item) {
  const row = report.rows[item.lo], cls = classOf(row.words[0]), parts = item.hi - item.lo + 1;
  const text = row.words.join(' ') + (parts > 1 ? ' to ' + report.rows[item.hi].words[3] : '');
  if (item.fold === item.lo) cell.append(foldButton(item));
  cell.append(make('span', 'entry ' + cls, (how.compact ? row.actor : WORDS.letters[cls][0]) + ' ' + text));
  if (row.isFirst) cell.append(make('span', 'op', opText(row.op)));
}

function lanesOf(item) {
  const row = report.rows[item.lo];
  return report.actors.map((x, a) => {
    const lane = make('span', row.begun[a] ? 'bar' : ''), stand = row.stands && row.stands[a];
    if (row.actor !== 'a' + a) standingInto(lane, stand, beginsAt(row, stand));
    else if (how.compact) lane.append(make('span', 'entry ' + classOf(row.words[0]), letterOf(row.words[0])));
    else entryInto(lane, item);
    lane.title = isWait(stand) ? waitSentence('a' + a, stand) : lane.textContent;
    return lane;
  });
}

// waits in words, those for the same together; which actors these are, the lanes show too
function waitsText(waits) {
  const actorsOf = new Map();
  waits.forEach((wait, a) => {
    if (isWait(wait)) actorsOf.set(waitShort(wait), [...(actorsOf.get(waitShort(wait)) || []), 'a' + a]);
  });
  const who = actors => (actors.length < 3 ? actors.join(' ') : actors.length + ' actors');
  return [...actorsOf].map(([said, actors]) => '  ' + who(actors) + ' ' + said).join('');
}

function textOf(item) {
  const row = report.rows[item.lo], text = make('span', 'text');
  entryInto(text, item);
  text.append(make('span', 'waits', waitsText((row.stands || []).map(wait => beginsAt(row, wait) && wait))));
  text.title = text.textContent;
  return text;
}

// what a fold of the set-up says
function setUpText(item) {
  const rows = report.rows.slice(item.lo, item.hi + 1), ops = rows.filter(x => x.isFirst).map(x => x.op.words[0]);
  return rows[0].actor + ' alone: ' + rows.length + ' rows, ' + ops.join(', ');
}

function drawItem(i) {
  const item = items[i], e = make('div', 'row' + (items[i].hi === chosen ? ' on' : '')), row = report.rows[item.lo];
  const link = make('a', 'at', item.hi + ' ');
  e.id = 'r' + item.hi;
  e.setAttribute('role', 'option');
  e.setAttribute('aria-selected', String(item.hi === chosen));
  e.style.top = i * HIGH + 'px';
  link.href = '#' + item.hi;
  link.tabIndex = -1;
  e.append(link);
  if (item.hi > item.lo && row.words[0] !== 'copied') {
    const whole = e.appendChild(make('span', 'whole'));
    whole.append(foldButton(item), setUpText(item));
  } else e.append(...lanesOf(item), ...(how.compact ? [textOf(item)] : []));
  e.addEventListener('click', () => { if (!String(getSelection())) choose(item.hi); });
  return e;
}

function foldButton(item) {
  const button = make('button', 'fold', item.hi > item.lo ? '\u25b8' : '\u25be');
  button.tabIndex = -1;
  button.setAttribute('aria-label', item.hi > item.lo ? 'unfold' : 'fold');
  button.addEventListener('click', event => { event.stopPropagation(); toggleFold(item.lo); });
  return button;
}

function toggleFold(at) {
  if (how.unfolded.has(at)) how.unfolded.delete(at); else how.unfolded.add(at);
  again();
}

// how all stand after the last row
function drawEnd() {
  const e = make('div', 'row'), isAll = report.rows.length === report.count;
  e.style.top = items.length * HIGH + 'px';
  e.append(make('span', 'at', isAll ? 'end ' : '... '), ...report.actors.map((x, a) => {
    const lane = make('span', x.begun ? 'bar' : '');
    standingInto(lane, report.last && report.last[a], true);
    lane.title = lane.textContent;
    return lane;
  }));
  if (how.compact) e.append(make('span', 'text waits', waitsText(report.last || [])));
  drawn.set(-1, e);
  byId('field').append(e);
}

function draw() {
  const box = byId('rows'), n = items.length;
  let lo = 0, hi = n;
  if (n > ALL) {
    lo = Math.max(0, Math.floor(box.scrollTop / HIGH) - 20);
    hi = Math.min(n, Math.ceil((box.scrollTop + box.clientHeight) / HIGH) + 20);
  }
  for (const [i, e] of drawn) if (i >= 0 && (i < lo || i >= hi)) { e.remove(); drawn.delete(i); }
  const some = document.createDocumentFragment();
  for (let i = lo; i < hi; i++) if (!drawn.has(i)) {
    const e = drawItem(i);
    drawn.set(i, e);
    some.append(e);
  }
  byId('field').append(some);
}

// lanes in words, or one column a lane and the words after them, where lanes would be too narrow
function chooseLayout() {
  const probe = byId('lanes').appendChild(make('span', '', '0'.repeat(100)));
  probe.style.position = 'absolute';
  const ch = probe.getBoundingClientRect().width / 100 || 7.5;
  probe.remove();
  const room = byId('rows').clientWidth / ch, n = report.actors.length;
  how.compact = how.narrow === null ? (room - 8) / n < 25 : how.narrow;
  const lane = Math.max(1.5, Math.min(2.8, (room - String(report.rows.length).length - 24) / n));
  document.documentElement.style.setProperty('--lane', lane + 'ch');
  byId('rows').classList.toggle('compact', how.compact);
  byId('layout').setAttribute('aria-pressed', String(how.compact));
  const name = a => (how.compact ? a % (lane < 2.4 ? 10 : 100) : 'a' + a);
  byId('lanes').replaceChildren(make('span', 'at', ''), ...report.actors.map((x, a) => make('span', '', name(a))));
  if (how.compact) byId('lanes').append(make('span', 'text', ''));
}

// ---- the pane

// the changes of some rows, one for each line of the state
function changesOf(lo, hi) {
  if (lo === hi) return report.rows[hi].changes;
  const byKey = new Map();
  for (const row of report.rows.slice(lo, hi + 1)) for (const [key, old, text] of row.changes) {
    if (byKey.has(key)) byKey.get(key)[2] = text; else byKey.set(key, [key, old, text]);
  }
  return [...byKey.values()].filter(x => x[1] !== x[2]);
}

function changedList(changes) {
  const ul = make('ul');
  let heading = '';
  for (const [key, old, text] of changes.slice().sort((x, y) => (x[0] < y[0] ? -1 : 1))) {
    if (headingOf(key) !== heading) ul.append(make('li', 'goes', heading = headingOf(key)));
    for (const [tag, said] of [['del', old], ['ins', text]]) if (said !== undefined) {
      ul.appendChild(make('li')).append(make(tag, '', said));
    }
  }
  return ul;
}

// the sentence of an item; of a copy it is about all its parts
function itemSentence(item) {
  const row = report.rows[item.lo], [word, f, g, k] = row.words, last = report.rows[item.hi].words;
  const isCopy = word === 'copied' && item.hi > item.lo;
  return isCopy ? expand(WORDS.folded, { f, g, k, last: last[3] }, '') : sentence(last);
}

// a word and links to rows; nothing if there are none
function linksTo(word, rows) {
  if (!rows.length) return [];
  const p = make('p', 'goes', word + ' '), links = rows.sort((x, y) => x - y).map(at => {
    const link = make('a', '', 'row ' + at);
    if (at >= report.from) link.href = '#' + at;
    return [link, ' '];
  });
  p.append(...links.flat());
  return [p];
}

const CAUSES = { retry: 'told at', loaded: 'written at', fetched: 'written at' };

function showNow(item, changes) {
  const row = report.rows[item.hi], box = byId('now'), says = itemSentence(item);
  const title = item.lo === item.hi ? 'Row ' + item.hi : 'Rows ' + item.lo + ' to ' + item.hi;
  box.replaceChildren(make('h2', '', title), make('p', 'mono ' + classOf(row.words[0]), entryText(row)),
    make('p', '', says + '.'), ...linksTo(CAUSES[row.words[0]], row.causes),
    make('p', 'goes', 'of ' + row.actor + ': ' + opText(row.op)));
  const waits = (row.stands || []).map((wait, a) => isWait(wait) && waitSentence('a' + a, wait)
    + (wait.since < row.at ? ', since row ' + wait.since : '')).filter(x => x);
  if (changes.length) box.append(changedList(changes));
  for (const said of waits) box.append(make('p', 'waits', said));
  byId('said').textContent = 'row ' + item.hi + ': ' + entryText(row) + '. ' + [says, ...waits].join('. ');
}

// a section of the state, with its lines in the order of their keys
function sectionFor(key) {
  const name = sectionOf(key);
  if (sections.has(name)) return sections.get(name);
  const s = { name, box: make('details'), list: make('ul'), keys: [], lines: new Map(), wanted: null };
  const summary = make('summary', '', headingOf(key)), later = [...sections.keys()].filter(x => x > name).sort()[0];
  summary.addEventListener('click', () => { s.wanted = !s.box.open; });
  s.box.append(summary, s.list);
  s.box.hidden = true;
  sections.set(name, s);
  byId('state').insertBefore(s.box, later ? sections.get(later).box : null);
  return s;
}

function placeOf(keys, key) {
  let lo = 0, hi = keys.length;
  while (lo < hi) {
    const mid = (lo + hi) >> 1;
    if (keys[mid] < key) lo = mid + 1; else hi = mid;
  }
  return lo;
}

function putLine(key) {
  const s = sectionFor(key), text = walk.lines.get(key), at = placeOf(s.keys, key), old = s.lines.get(key);
  if (text === undefined) {
    if (!old) return;
    old.remove();
    s.lines.delete(key);
    s.keys.splice(at, 1);
    s.box.hidden = !s.keys.length;
  } else if (old) old.textContent = text;
  else {
    const li = make('li', '', text);
    li.dataset.key = key;
    s.list.insertBefore(li, s.keys[at] === undefined ? null : s.lines.get(s.keys[at]));
    s.lines.set(key, li);
    s.keys.splice(at, 0, key);
    s.box.hidden = false;
  }
}

// the row that made a line of the state, from an event on the line
function makerOf(e) {
  const li = e.target.closest('li');
  return li ? report.madeBy(li.dataset.key, chosen) : undefined;
}

function tellMaker(e) {
  const li = e.target.closest('li'), at = makerOf(e);
  if (li) li.title = at === undefined ? 'so before the first row' : 'so since row ' + at + ': click to go there';
}

function goToMaker(e) {
  const at = makerOf(e);
  if (at !== undefined && !String(getSelection())) choose(at);
}

function showState(changes) {
  for (const key of walk.goTo(chosen)) putLine(key);
  for (const li of marked) li.replaceChildren(li.textContent);
  marked = [];
  const touched = new Set();
  for (const [key] of changes) {
    const s = sectionFor(key), li = s.lines.get(key);
    touched.add(s);
    if (!li) continue;
    li.replaceChildren(make('ins', '', li.textContent));
    marked.push(li);
  }
  const isSmall = walk.lines.size <= SMALL;
  for (const s of sections.values()) {
    const open = s.wanted !== null ? s.wanted : isSmall || (touched.has(s) && s.keys.length <= SMALL);
    if (s.box.open !== open) s.box.open = open;
  }
}

// the script's lines about some of them, if it is long
function showScript() {
  if (how.tab !== 'script') return;
  const row = report.rows[chosen], n = report.script.length, box = byId('script'), wanted = new Set();
  const used = row.turn ? row.turn.line : -1;
  if (n <= 400) for (let i = 0; i < n; i++) wanted.add(i);
  else for (const at of [3, row.op.line, used]) {
    if (at >= 0) for (let i = Math.max(0, at - 8); i < Math.min(n, at + 9); i++) wanted.add(i);
  }
  let before = -1, shown = null;
  box.replaceChildren();
  for (const i of [...wanted].sort((x, y) => x - y)) {
    if (i > before + 1) box.append(make('div', 'gap', '..'));
    const count = i === used && row.turn.count ? '   turn ' + row.used + ' of ' + row.turn.count : '';
    const cls = i === used ? 'used' : i === row.op.line ? 'op' : '';
    const e = box.appendChild(make('div', cls, report.script[i] + count));
    if (cls === 'op' || (cls === 'used' && !shown)) shown = e;
    before = i;
  }
  if (shown) shown.scrollIntoView({ block: 'nearest' });
}

// the script with a schedule that ends at the chosen row, for the clipboard
async function copyScript() {
  const text = report.scriptUpTo(chosen), button = byId('copy');
  try {
    await navigator.clipboard.writeText(text);
  } catch {
    const area = document.body.appendChild(Object.assign(make('textarea', 'away'), { value: text }));
    area.select();
    document.execCommand('copy');
    area.remove();
  }
  button.textContent = 'copied';
  setTimeout(() => { button.textContent = 'copy script up to here'; }, 1500);
}

function showTab(name) {
  how.tab = name;
  for (const tab of ['state', 'script']) {
    byId(tab).hidden = tab !== name;
    byId('tab-' + tab).setAttribute('aria-selected', String(tab === name));
  }
  showScript();
}

// ---- choosing

let hashTimer = 0;

// a row that is one of those shown is the chosen one from now on
function choose(at, isQuiet) {
  if (!(at >= report.from && at < report.rows.length)) return;
  if (itemAt[at] < 0) {
    how.words = [];
    byId('filter').value = '';
    layOut();
    drawMarks();
  }
  if (items[itemAt[at]].hi !== at) {
    how.unfolded.add(items[itemAt[at]].fold);
    layOut();
  }
  mark(chosen, false);
  chosen = at;
  const i = itemAt[at], changes = changesOf(items[i].lo, at);
  centre(i);
  draw();
  mark(at, true);
  inView(drawn.get(i), at);
  tellPosition(isQuiet);
  showNow(items[i], changes);
  showState(changes);
  showScript();
}

function mark(at, isOn) {
  const e = at >= 0 && at < itemAt.length && drawn.get(itemAt[at]);
  if (!e) return;
  e.classList.toggle('on', isOn);
  e.setAttribute('aria-selected', String(isOn));
  if (isOn) byId('rows').setAttribute('aria-activedescendant', e.id);
}

// scrolls as little as keeps the item between three and seven tenths of the box
function centre(i) {
  const box = byId('rows'), view = box.clientHeight, top = (i + 1) * HIGH;
  const low = top - 0.7 * view, high = top - 0.3 * view, far = Math.abs(top - view / 2 - box.scrollTop) > view;
  if (far) box.scrollTop = top - view / 2;
  else if (box.scrollTop < low) box.scrollTop = low;
  else if (box.scrollTop > high) box.scrollTop = high;
}

// sideways the lane's first words are in view
function inView(e, at) {
  const box = byId('rows'), lane = e && !how.compact && e.children[+report.rows[at].actor.slice(1) + 1];
  if (!lane || box.scrollWidth <= box.clientWidth) return;
  const left = lane.offsetLeft - e.children[0].offsetWidth;
  const right = lane.offsetLeft + lane.offsetWidth - box.clientWidth;
  if (left < box.scrollLeft || right > box.scrollLeft) box.scrollLeft = left;
}

// the place of the chosen row among those that the filter shows
function tellMatches() {
  const n = items.length, at = itemAt && chosen >= 0 ? itemAt[chosen] : -1;
  byId('matches').textContent = !how.words.length ? ''
    : at >= 0 ? at + 1 + ' of ' + n : plural(n, 'match', 'matches');
}

// what stands in the address: the chosen row, and the filter
const address = () => '#' + chosen + (how.words.length ? '/' + encodeURIComponent(how.words.join(' ')) : '');

function tellPosition(isQuiet) {
  byId('slider').value = chosen;
  byId('chosen').textContent = 'row ' + chosen + ' (' + report.from + ' to ' + (report.rows.length - 1) + ')';
  clearTimeout(hashTimer);
  if (!isQuiet) hashTimer = setTimeout(() => history.replaceState(null, '', address()), 200);
  tellMatches();
}

const step = by => {
  const i = itemAt[chosen] + by;
  if (i >= 0 && i < items.length) choose(items[i].hi);
};

function jump(by) {
  if (items.length) choose(items[Math.max(0, Math.min(items.length - 1, itemAt[chosen] + by))].hi);
}

// the nearest of these positions, which rise, before or after the chosen row
function goTo(positions, isForward) {
  const shown = positions.filter(at => at >= report.from && at < report.rows.length);
  const next = isForward ? shown.find(at => at > chosen) : shown.filter(at => at < chosen).pop();
  if (next !== undefined) choose(next);
}

function goToHash() {
  const [at, ...words] = location.hash.slice(1).split('/');
  if (words.length) {
    byId('filter').value = decodeURIComponent(words.join('/'));
    filter();
  }
  if (!/^\d+$/.test(at)) return false;
  if (+at >= report.from && +at < report.rows.length) choose(+at);
  else byId('chosen').textContent = 'there is no row ' + at + ' here';
  return +at === chosen;
}

// ---- the head

const KINDS = {
  failed: xs => xs.length + ' failed',
  refused: xs => xs.length + ' refused',
  retry: xs => plural(xs.length, 'retry', 'retries'),
  lost: xs => plural(xs.length, 'exclusive page') + ' lost',
  wait: xs => plural(xs.length, 'wait'),
  kept: xs => xs.length + ' kept',
  migrated: xs => plural(xs.length, 'migration') + ', ' + plural(xs.reduce((n, x) => n + x.count, 0), 'page'),
  evicted: xs => plural(xs.length, 'eviction') + ', ' + plural(xs.reduce((n, x) => n + x.count, 0), 'frame'),
};
const findingsOn = () => report.findings.filter(x => !how.off.has(x.kind)).map(x => x.at).sort((x, y) => x - y);

function findingLine(x) {
  const li = make('li'), link = make('a', '', x.at + ' ' + x.text);
  if (x.at >= report.from && x.at < report.rows.length) link.href = '#' + x.at;
  li.append(link);
  return li;
}

function findingGroup(kind, xs, isOpen) {
  const box = make('details'), summary = make('summary'), label = make('label'), list = make('ul');
  const tick = Object.assign(make('input'), { type: 'checkbox', checked: true, title: 'n and p stop here' });
  const fill = () => {
    if (list.children.length) return;
    list.append(...xs.slice(0, 300).map(findingLine));
    if (xs.length > 300) list.append(make('li', 'goes', 'and ' + (xs.length - 300) + ' more: n goes to each'));
  };
  tick.addEventListener('change', () => {
    if (tick.checked) how.off.delete(kind); else how.off.add(kind);
    drawMarks();
  });
  label.append(tick);
  summary.append(label, ' ' + KINDS[kind](xs));
  box.append(summary, list);
  box.addEventListener('toggle', fill);
  if (isOpen) { fill(); box.open = true; }
  return box;
}

function openGroup(isOpen) {
  const box = make('details'), list = make('ul');
  for (const [a, i] of report.open) {
    const op = report.actors[a.slice(1)].ops[i], wait = report.last && report.last[a.slice(1)];
    list.append(make('li', '', a + ' ' + i + ' (' + (op ? opText(op) : '') + ')'
      + (isWait(wait) ? ': ' + waitSentence(a, wait) : '')));
  }
  box.append(make('summary', 'waits', plural(report.open.length, 'operation') + ' not ended'), list);
  box.open = isOpen;
  return box;
}

function tellHead() {
  const n = report.rows.length, isPart = report.from > 0 || n < report.count;
  const entries = plural(report.count, 'entry', 'entries'), actors = plural(report.actors.length, 'actor');
  const isRoomy = innerWidth > 700 && innerHeight > 600, isFew = report.findings.length <= 8 && isRoomy;
  const file = decodeURIComponent(location.pathname.split('/').pop());
  document.title = (file ? file + ': ' : '') + entries + ', ' + actors + ' - hmmview';
  byId('counts').textContent = entries + (isPart ? ', rows ' + report.from + ' to ' + (n - 1) : '') + '; ' + actors
    + (report.findings.length ? '' : '; no findings');
  const groups = Object.keys(KINDS).map(kind => [kind, report.findings.filter(x => x.kind === kind)]);
  byId('findings').replaceChildren(...(report.open.length ? [openGroup(isFew)] : []),
    ...groups.filter(x => x[1].length).map(([kind, xs]) => findingGroup(kind, xs, isFew)));
  const said = Object.entries(WORDS.letters).map(([cls, [letter, name]]) => make('span', cls, letter + ' ' + name));
  said.push(make('span', 'waits', '\u2016 waits'), make('span', 'goes', '\u00b7 could go on'),
    make('span', '', 'empty: done'));
  byId('legend').replaceChildren(...said.flatMap(e => [e, ' \u00a0 ']));
  byId('help').open = isRoomy;
}

// under the slider: the rows that are shown by the filter, or else the findings
function drawMarks() {
  const canvas = byId('marks'), wide = canvas.clientWidth, n = Math.max(1, report.rows.length - report.from);
  if (!wide) return;
  canvas.width = wide;
  canvas.height = 7;
  const pen = canvas.getContext('2d');
  pen.fillStyle = getComputedStyle(document.documentElement).getPropertyValue('--wait');
  const at = how.words.length ? items.map(x => x.hi) : findingsOn();
  for (const x of at) pen.fillRect(Math.round((x - report.from) / n * wide), 0, 2, 7);
}

// ---- keys and buttons

function setFolded(isFolded) {
  how.folded = isFolded;
  how.unfolded.clear();
  byId('folds').setAttribute('aria-pressed', String(!isFolded));
  again();
}

function setNarrow(isNarrow) {
  how.narrow = isNarrow;
  chooseLayout();
  again();
}

function unfoldHere(isOpening) {
  const item = items[itemAt[chosen]];
  const isFolded = item.hi > item.lo;
  if (item.fold >= 0 && isFolded === isOpening) toggleFold(item.fold);
}

const pageOf = () => Math.max(1, Math.floor(byId('rows').clientHeight / HIGH) - 2);

const KEYS = {
  ArrowDown: () => step(1), j: () => step(1), ArrowUp: () => step(-1), k: () => step(-1),
  PageDown: () => jump(pageOf()), PageUp: () => jump(-pageOf()),
  Home: () => jump(-items.length), End: () => jump(items.length),
  n: () => goTo(findingsOn(), true), p: () => goTo(findingsOn(), false),
  w: () => goTo(report.waits, true), W: () => goTo(report.waits, false),
  ArrowRight: () => unfoldHere(true), ArrowLeft: () => unfoldHere(false), f: () => setFolded(!how.folded),
  c: () => setNarrow(!how.compact), s: () => showTab(how.tab === 'state' ? 'script' : 'state'),
  '/': () => byId('filter').focus(),
};

function onKey(e) {
  const isTyping = e.target.id === 'filter', isSliding = e.target.id === 'slider' && /^Arrow[LR]/.test(e.key);
  if (e.ctrlKey || e.altKey || e.metaKey || !items.length) return;
  if (isTyping && e.key === 'Escape') { e.target.value = ''; filter(); byId('rows').focus(); }
  if (isTyping && e.key === 'Enter') step(e.shiftKey ? -1 : 1);
  const act = !isTyping && !isSliding && Object.hasOwn(KEYS, e.key) && KEYS[e.key];
  if (!act) return;
  e.preventDefault();
  act();
}

function filter() {
  how.words = byId('filter').value.split(' ').filter(x => x);
  again();
  history.replaceState(null, '', address());
}

function onResize() {
  const before = how.compact;
  chooseLayout();
  if (before !== how.compact) layOut();
  drawMarks();
  if (items.length) choose(items[itemNear(chosen)].hi, true);
}

function forPrint(isPrinting) {
  if (report.rows.length - report.from > ALL) return;
  how.printing = isPrinting;
  again();
}

function listen() {
  byId('slider').addEventListener('input', e => { if (items.length) choose(items[itemNear(+e.target.value)].hi); });
  byId('rows').addEventListener('scroll', draw);
  byId('back').addEventListener('click', () => step(-1));
  byId('on').addEventListener('click', () => step(1));
  byId('folds').addEventListener('click', () => setFolded(!how.folded));
  byId('layout').addEventListener('click', () => setNarrow(!how.compact));
  byId('filter').addEventListener('input', filter);
  byId('copy').addEventListener('click', copyScript);
  byId('state').addEventListener('click', goToMaker);
  byId('state').addEventListener('mouseover', tellMaker);
  byId('tab-state').addEventListener('click', () => showTab('state'));
  byId('tab-script').addEventListener('click', () => showTab('script'));
  addEventListener('resize', onResize);
  addEventListener('hashchange', goToHash);
  addEventListener('keydown', onKey);
  addEventListener('beforeprint', () => forPrint(true));
  addEventListener('afterprint', () => forPrint(false));
}

// ---- a report on the screen

function show(text, setUpLines) {
  report = new Report(text, setUpLines);
  walk = new Walk(report);
  how.unfolded.clear();
  how.words = [];
  sections = new Map();
  marked = [];
  chosen = -1;
  byId('state').replaceChildren();
  document.documentElement.style.setProperty('--actors', report.actors.length);
  document.documentElement.style.setProperty('--digits', String(report.rows.length).length);
  byId('slider').min = report.from;
  byId('slider').max = Math.max(report.from, report.rows.length - 1);
  tellHead();
  chooseLayout();
  layOut();
  for (const key of walk.lines.keys()) putLine(key);
  drawMarks();
  if (items.length && !goToHash()) {
    const said = byId('chosen').textContent;
    choose(items[0].hi, true);
    if (/^there/.test(said)) byId('chosen').textContent = said;
  } else draw();
}

listen();
if (byId('data').textContent.trim()) show(byId('data').textContent);
</script>
</body>
</html>
"##;

/// The page's head.
#[tactic(none)]
pub(crate) fn head() -> &'static [u8]
    ensures { result.now ≡ page_head }
{
    HEAD
}

/// What stands after the lines.
#[tactic(none)]
pub(crate) fn end() -> &'static [u8]
    ensures { result.now ≡ page_end }
{
    TAIL
}
